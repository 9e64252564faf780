//! Worked texts of answers. The function has an empty body: its clauses are what it is for.
ghost use Rattle.std.specs.Prelude.{◌≡◌, [], codes};
ghost use Rattle.join_model.specs.Examples.{inner_query, outer_query, customer_frames, order_frames, fewer_orders};
ghost use Rattle.join_model.specs.Answers.{answer_rows, answer_groups};
ghost use Rattle.join_text.specs.Text.{answer_text_of};

/// Answers: the eight records of an inner join and its groups, its headers alone where there are no frames, and nulls of an outer join.
pub fn answer_text_examples()
    ensures inner { answer_text_of (answer_rows inner_query customer_frames order_frames)
        (answer_groups inner_query customer_frames order_frames) ≡
        codes "J,probe.cust,probe.amt,build.id,build.name\nJ,1,5,1,Ann\nJ,1,5,1,Cy\nJ,2,1,2,Bo\nG,build.name,sum(probe.amt)\nG,Ann,5\nG,Cy,5\nG,Bo,1\n" }
    ensures headers { answer_text_of (answer_rows inner_query [] [])
        (answer_groups inner_query [] []) ≡
        codes "J,probe.cust,probe.amt,build.id,build.name\nG,build.name,sum(probe.amt)\n" }
    ensures outer { answer_text_of (answer_rows outer_query customer_frames fewer_orders)
        (answer_groups outer_query customer_frames fewer_orders) ≡
        codes "J,probe.cust,probe.amt,build.id,build.name\nJ,1,5,1,Ann\nJ,1,5,1,Cy\nJ,3,7,\\N,\\N\nJ,\\N,\\N,2,Bo\nG,build.name,sum(probe.amt)\nG,Ann,5\nG,Cy,5\nG,\\N,7\nG,Bo,0\n" }
{}
