ghost use Rattle.std.specs.Prelude.{◌≤◌, IfNone, IfSome, Result};
ghost use Rattle.sf_algebra.specs.Bounds.{GREATEST_SIZE};
ghost use Rattle.sf_matrix.specs.Meets.{Meets};
ghost use Rattle.sf_genmor.specs.QuotientLaws.{EndsBySize};
ghost use Rattle.sf_genmor.specs.QuotientPlans.{quotient_plan};

use crate::looks::basis_of;
use crate::presentation::{Presentation, present};
use crate::units::unit_basis;
use sf_matrix::{BaseFault, Bases, Matrix};
use std::alloc::Global;

/// The greatest number of rows or columns of a matrix that is looked at.
const GREATEST_SIZE: u64 = 4096;

/// Generators and relations of a free module modulo the span of a matrix.
///
/// It looks at the matrix, and at what the presentation needs.
pub fn present_quotient<B: Bases>(
    alloc: Global,
    m: &Matrix,
    bases: &mut B,
) -> Result<Presentation, BaseFault>
    ensures { Meets (B.table bases.old) (quotient_plan m.now) result (B.table bases.new) }
{
    m.modulus().facts();
    if let Some(fault) = size_fault(m.rows() as u64, m.cols() as u64) {
        return Err(fault);
    }
    let base = basis_of(alloc, m, bases)?;
    let units = unit_basis(alloc, m.modulus(), m.target())?;
    present(alloc, &units, &base, bases)
}

/// The fault in which `present_quotient` ends for a matrix of so many rows and columns, or `None` where both are within bounds.
///
/// A caller that knows the numbers asks here before it makes the matrix. One without rows isn't looked at, but the unit vectors
/// of its columns are.
pub fn size_fault(rows: u64, cols: u64) -> Option<BaseFault>
    ensures fault { IfSome result (EndsBySize rows cols) }
    ensures rows { IfNone result (rows ≤ GREATEST_SIZE) }
    ensures columns { IfNone result (cols ≤ GREATEST_SIZE) }
{
    if rows <= GREATEST_SIZE && cols <= GREATEST_SIZE {
        return None;
    }
    if rows == 0 {
        return Some(BaseFault::Large { rows: cols, cols });
    }
    Some(BaseFault::Large { rows, cols })
}
