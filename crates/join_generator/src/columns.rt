//! The frames of two columns of numbers.
ghost use Rattle.std.specs.Prelude.{◌≡◌, ◌<◌, ◌≤◌, [], ◌∷◌, map, length, IfOk, OnOk};
ghost use Rattle.std.specs.List.{All};
ghost use Rattle.col_core.specs.declared.leaf.Leaf.TheVariants as leaves;
ghost use Rattle.col_core.specs.Tables.{header, rows_from};
ghost use Rattle.col_core.specs.Values.{Fits};
ghost use Rattle.join_generator.specs.Generated.{state_after, build_table, probe_table, number_field};

use crate::draws::Draws;
use crate::fields::number_fields;
use crate::numbers::{Numbers, build_numbers, probe_numbers};
use col_core::{Chunk, DataType, Frame, Name, PrimitiveArray, Series};
use std::alloc::{AllocError, Global};

/// A column of numbers, in one chunk.
#[tactic(auto, using(crate::proofs::Rows::one_column))]
fn number_column(alloc: Global, name: &str, numbers: Vec<i64>) -> Result<Series, AllocError>
    ensures header { IfOk result (λ c. header c ≡ number_field name.now) }
    ensures values { IfOk result (λ c. c.values ≡ map (λ z. leaves.Whole z) numbers.items) }
    ensures fits { IfOk result (λ c. All (Fits c.dtype) c.values) }
{
    let chunk = Chunk::I64(PrimitiveArray::from_vec(numbers));
    let _count = chunk.len();
    let name = Name::new(alloc, name)?;
    let chunks = vec![in alloc; chunk]?;
    Ok(Series::from_chunks(name, DataType::Int64, chunks))
}

/// A frame of two columns of numbers, each in one chunk.
fn number_frame(
    alloc: Global,
    name: &str,
    other: &str,
    numbers: Numbers,
) -> Result<Frame, AllocError>
    requires { length numbers.ids.items ≡ length numbers.others.items }
    ensures schema { IfOk result
        (λ f. f.schema ≡ number_field name.now ∷ number_field other.now ∷ []) }
    ensures rows { IfOk result
        (λ f. f.rows ≡ rows_from (length numbers.ids.items)
        (map (λ z. leaves.Whole z) numbers.ids.items
        ∷ map (λ z. leaves.Whole z) numbers.others.items ∷ [])) }
{
    let Numbers { ids, others } = numbers;
    let height = ids.len();
    let schema = number_fields(alloc, name, other)?;
    let first = number_column(alloc, name, ids)?;
    let second = number_column(alloc, other, others)?;
    let columns = vec![in alloc; first, second]?;
    Ok(Frame::from_columns(schema, columns, height))
}

/// The frame of `n` build rows, whose numbers are the first that are drawn.
#[tactic(auto, using(crate::proofs::Rows::two_columns))]
pub fn build_frame(alloc: Global, n: u32, draws: &mut Draws) -> Result<Frame, AllocError>
    requires { draws.old ≡ state_after 0 }
    ensures frame { IfOk result (λ f. f ≡ build_table n) }
    ensures drawn { OnOk result (draws.new ≡ state_after n) }
{
    let numbers = build_numbers(alloc, n, draws)?;
    number_frame(alloc, "id", "grp", numbers)
}

/// The frame of the probe rows beside `n` build rows.
#[tactic(auto, using(crate::proofs::Rows::two_columns))]
pub fn probe_frame(alloc: Global, n: u32, draws: &mut Draws) -> Result<Frame, AllocError>
    requires some { 0 < n }
    requires most { n ≤ 100000 }
    requires drawn { draws.old ≡ state_after n }
    ensures { IfOk result (λ f. f ≡ probe_table n) }
{
    let numbers = probe_numbers(alloc, n, draws)?;
    number_frame(alloc, "id", "amt", numbers)
}
