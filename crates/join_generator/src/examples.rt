//! Worked answers of the definitions of `specs/`. The function has an empty body: its clauses are what it is for.
ghost use Rattle.std.specs.Prelude.{◌≡◌, pos};
ghost use Rattle.join_generator.specs.Generated.{drawn, build_row, probe_row, number_row};

/// The first number that is drawn, the first two build rows, and the first probe row beside them.
pub fn generated_examples()
    ensures first { drawn 0 ≡ 167951807 }
    ensures build { build_row 0 ≡ number_row (pos 0) (pos 7) }
{}
