ghost use Rattle.std.specs.Prelude.{◌≡◌, ◌<◌, ◌≤◌, ◌^◌, IfOk};
ghost use Rattle.std.specs.List.{AllByRecursion};
ghost use Rattle.sf_groebner.specs.ReducedBases.{IsSpanBasis};
ghost use Rattle.sf_groebner.specs.Small.{IsWithinLimit};
ghost use Rattle.sf_groebner.specs.Spans.{InSpan};
ghost use Rattle.sf_matrix.specs.KeptNumbers.{AreKeptNumbers, IsModerate, SpansInto};
ghost use Rattle.sf_minimal.specs.Numbers.{free_numbers};
ghost use Rattle.sf_minimal.specs.Pivots.{ArePivots};

use crate::degrees::has_pivot;
use crate::facts::matrix_facts;
use crate::steps::pivots_of;
use sf_field::OutOfMemory;
use sf_matrix::Matrix;
use sf_reduce::Leads;
use std::alloc::Global;

/// The numbers, counted from 0 and in order, of the rows of `cands` that aren't in the span of `base` and the earlier
/// rows.
pub fn minimal_of(alloc: Global, cands: &Matrix, base: &Matrix) -> Result<Vec<usize>, OutOfMemory>
    requires reduced { IsSpanBasis cands.now cands.now.rows }
    requires low { IsWithinLimit cands.now.ring.weights 60 cands.now.rows }
    requires degrees { AllByRecursion IsModerate cands.now.target }
    requires ring { base.now.ring ≡ cands.now.ring }
    requires target { base.now.target ≡ cands.now.target }
    requires inside { SpansInto base.now cands.now }
    ensures kept { IfOk result (λ ks. AreKeptNumbers (InSpan base.now) cands.now ks.items) }
{
    matrix_facts(cands);
    let pivots = pivots_of(alloc, cands, base)?;
    let numbers = numbers_of(alloc, &pivots, cands.rows())?;
    Ok(numbers)
}

/// The numbers below that of the rows for which there is no pivot.
fn numbers_of(alloc: Global, pivots: &Matrix, rows: usize) -> Result<Vec<usize>, OutOfMemory>
    requires pivots { ArePivots pivots.now }
    ensures numbers { IfOk result (λ ks. ks.items ≡ free_numbers pivots.now.rows rows rows) }
{
    let leads = Leads::of(alloc, pivots)?;
    let mut numbers = Vec::new(alloc);
    for i in 0..rows {
        if !has_pivot(&leads, rows, i) {
            numbers.push(i)?;
        }
    }
    Ok(numbers)
}
