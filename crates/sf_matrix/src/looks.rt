ghost use Rattle.std.specs.Prelude.{◌≡◌, ◌≤ℤ◌, IfOk};
ghost use Rattle.sf_algebra.specs.Vectors.{IsVector};
ghost use Rattle.sf_groebner.specs.Reductions.{IsReduction};
ghost use Rattle.sf_matrix.specs.Tables.{GREATEST_REDUCED_DEGREE};
ghost use Rattle.sf_matrix.specs.Meets.{Looked, IsLookOf};

use crate::bases::Bases;
use crate::basis::BaseFault;
use crate::matrix::Matrix;
use crate::sizes::has_small_size;
use crate::vector::Vector;
use sf_field::{Copied, OutOfMemory};
use std::alloc::Global;

/// Looks at a matrix: the number of its entry, or `None` for one without rows, which has no entry. No other function opens an
/// entry.
///
/// The fault is `Large` exactly where the matrix isn't small; one that is out of bounds isn't given to the table.
pub fn look<B: Bases>(alloc: Global, m: &Matrix, bases: &mut B) -> Result<Option<usize>, BaseFault>
    ensures looked { Looked (B.table bases.old) m.now result (B.table bases.new) }
{
    m.modulus().facts();
    if m.rows() == 0 {
        return Ok(None);
    }
    if !has_small_size(m) {
        return Err(BaseFault::Large {
            rows: m.rows() as u64,
            cols: m.cols() as u64,
        });
    }
    let k = bases.open(alloc, m)?;
    Ok(Some(k))
}

/// The one pair of a vector w that is reduced by the rows of `m` and reduced coefficients c with v = w + c M, where a look at `m`
/// found `entry`.
pub fn reduced<B: Bases>(
    alloc: Global,
    m: &Matrix,
    entry: Option<usize>,
    v: &Vector,
    bases: &B,
) -> Result<(Vector, Vector), OutOfMemory>
    requires entry { IsLookOf (B.table bases.now) m.now entry }
    requires vector { IsVector m.now.ring m.now.target v.now }
    requires room { v.now.degree ≤ℤ GREATEST_REDUCED_DEGREE }
    ensures reduction { IfOk result (λ d. IsReduction m.now v.now d.0 d.1) }
{
    m.modulus().facts();
    match entry {
        Some(k) => bases.reduce(alloc, k, v),
        None => Ok((v.copy(alloc)?, Vector::zero(alloc, v.degree()))),
    }
}
