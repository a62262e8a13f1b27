ghost use Rattle.std.specs.Prelude.{ℕ, ◌≤ℤ◌, IfOk};
ghost use Rattle.sf_algebra.specs.Vectors.{IsVector};
ghost use Rattle.sf_groebner.specs.Reductions.{IsReduction};
ghost use Rattle.sf_matrix.specs.Tables.{GREATEST_REDUCED_DEGREE};
ghost use Rattle.sf_buchberger.specs.WholeBases.{IsWholeBasis};

use sf_buchberger::GraphBasis;
use sf_field::OutOfMemory;
use sf_matrix::{Matrix, Vector};
use sf_reduce::{rest_of, sum_of};
use std::alloc::Global;

/// What is left of a vector, reduced by the rows of `m` as relations, and the coefficients that this takes.
///
/// The vector, with zero coefficients behind it, is divided by the elements of the graph's basis. The rest is what is left,
/// with the negatives of the coefficients behind it.
pub(crate) fn reduction(
    alloc: Global,
    m: &Matrix,
    basis: &GraphBasis,
    v: &Vector,
) -> Result<(Vector, Vector), OutOfMemory>
    requires basis { (limit : ℕ) × IsWholeBasis limit m.now basis.now }
    requires vector { IsVector m.now.ring m.now.target v.now }
    requires room { v.now.degree ≤ℤ GREATEST_REDUCED_DEGREE }
    ensures reduction { IfOk result (λ d. IsReduction m.now v.now d.0 d.1) }
{
    let modulus = m.modulus();
    modulus.facts();
    let sum = sum_of(alloc, modulus, v)?;
    let (rest, _steps) = rest_of(alloc, sum, &basis.elements, &basis.leads)?;
    let columns = m.cols() as u64;
    let left = rest.part(alloc, 0, columns)?;
    let taken = rest.part(alloc, columns, columns + m.rows() as u64)?;
    let coefficients = taken.negative(alloc, modulus)?;
    Ok((left, coefficients))
}
