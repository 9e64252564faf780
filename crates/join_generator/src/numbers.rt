//! The numbers of the rows.
ghost use Rattle.std.specs.Prelude.{◌≡◌, ◌*◌, ◌<◌, ◌≤◌, ◌%◌, pos, map, IfOk, OnOk};
ghost use Rattle.std.specs.List.{range_with_len};
ghost use Rattle.join_generator.specs.Generated.{state_after, build_id, build_group, probe_id, probe_amount, amount};

use crate::draws::Draws;
use std::alloc::{AllocError, Global};

/// The numbers of two columns.
#[derive(Drop)]
pub(crate) struct Numbers {
    pub(crate) ids: Vec<i64>,
    pub(crate) others: Vec<i64>,
}

/// What is left of a number below a bound.
fn remainder(drawn: u64, bound: u32) -> i64
    requires { 0 < bound }
    ensures { result ≡ pos (drawn % bound) }
{
    (drawn % u64::from(bound)) as i64
}

fn amount(drawn: u64) -> i64
    ensures { result ≡ amount drawn }
{
    remainder(drawn, 1000) - 500
}

/// The numbers of the build rows, which are drawn first.
pub(crate) fn build_numbers(alloc: Global, n: u32, draws: &mut Draws) -> Result<Numbers, AllocError>
    requires { draws.old ≡ state_after 0 }
    ensures ids { IfOk result (λ v. v.ids.items ≡ map build_id (range_with_len 0 n)) }
    ensures groups { IfOk result (λ v. v.others.items ≡ map build_group (range_with_len 0 n)) }
    ensures drawn { OnOk result (draws.new ≡ state_after n) }
{
    let mut ids = Vec::with_capacity(alloc, n as usize)?;
    let mut others = Vec::with_capacity(alloc, n as usize)?;
    for i in 0..n {
        ids.push_reserved(i64::from(i / 2));
        others.push_reserved(remainder(draws.draw(), 100));
    }
    Ok(Numbers { ids, others })
}

/// The numbers of the probe rows beside `n` build rows, after whose numbers they are drawn.
pub(crate) fn probe_numbers(alloc: Global, n: u32, draws: &mut Draws) -> Result<Numbers, AllocError>
    requires some { 0 < n }
    requires most { n ≤ 100000 }
    requires drawn { draws.old ≡ state_after n }
    ensures ids { IfOk result (λ v. v.ids.items ≡ map (probe_id n) (range_with_len 0 (4 * n))) }
    ensures amounts { IfOk result
        (λ v. v.others.items ≡ map (probe_amount n) (range_with_len 0 (4 * n))) }
{
    let rows = 4 * n;
    let mut ids = Vec::with_capacity(alloc, rows as usize)?;
    let mut others = Vec::with_capacity(alloc, rows as usize)?;
    for j in 0..rows {
        ids.push_reserved(remainder(draws.draw(), n));
        others.push_reserved(amount(draws.draw()));
    }
    Ok(Numbers { ids, others })
}
