ghost use Rattle.std.specs.Prelude.{◌≡◌, ◌≤◌, IfOk, IfSome};
ghost use Rattle.sf_algebra.specs.Bounds.{HasSmallSize};
ghost use Rattle.sf_groebner.specs.GraphRows.{graph_matrix};
ghost use Rattle.sf_buchberger.specs.CountedRows.{IsCountedBasis};

mod checks;
mod columns;
mod degree;
mod elimination;
mod finding;
mod finish;
mod reducers;
mod state;
mod taking;

use crate::counted::checks::variables_of;
use crate::counted::state::Counting;
use crate::growth::steps::facts;
use sf_field::OutOfMemory;
use sf_matrix::Matrix;
use sf_pairs::Strategy;
use std::alloc::Global;

/// More degrees than the pairs and generators of a small graph have.
const MOST_DEGREES: usize = 1_000_000;

/// The reduced basis of the graph of `m`, whose generators are given, by linear algebra in each degree. A count certifies
/// it.
///
/// `None` says nothing; then a loop over single pairs decides. It comes where a degree has too many places, and where an
/// element is past the bounds of what is small.
pub(crate) fn counted_rows<S: Strategy>(
    alloc: Global,
    m: &Matrix,
    generators: &Matrix,
    limit: u32,
    strategy: &mut S,
) -> Result<Option<Matrix>, OutOfMemory>
    requires generators { generators.now ≡ graph_matrix m.now }
    requires size { HasSmallSize m.now }
    requires limit { limit ≤ 60 }
    ensures basis { IfOk result (λ found. IfSome found (IsCountedBasis limit m.now)) }
{
    facts(m);
    let mut counting = Counting::start(alloc, m, variables_of(m), generators)?;
    for _ in 0..MOST_DEGREES {
        let Some(degree) = counting.least() else {
            break;
        };
        if !counting.fill(alloc, m, generators, limit, degree, strategy)? {
            return Ok(None);
        }
    }
    if counting.covers(m) {
        Ok(Some(counting.rows))
    } else {
        Ok(None)
    }
}
