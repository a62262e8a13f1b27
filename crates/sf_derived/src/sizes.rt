ghost use Rattle.std.specs.Prelude.{◌≡◌, ◌^◌, ◌<◌, IfSome};
ghost use Rattle.sf_matrix.specs.declared.basis.BaseFault.TheVariants.{Large};
ghost use Rattle.sf_derived.specs.Room.{IsBeyondBounds, columns_beside, rows_beside};

use sf_matrix::{BaseFault, Matrix};

/// The greatest number of rows or columns of a matrix that is looked at.
const GREATEST_SIZE: u64 = 4096;

/// The numbers of rows and columns of what a map gives between tensor products with a module, with the relations of the second of
/// these behind it.
pub(crate) fn size_beside(a: &Matrix, n: &Matrix) -> (u64, u64)
    requires rows { rows_beside a.now n.now < 2 ^ 64 }
    requires columns { columns_beside a.now n.now < 2 ^ 64 }
    ensures rows { result.0 ≡ rows_beside a.now n.now }
    ensures columns { result.1 ≡ columns_beside a.now n.now }
{
    let (a_rows, a_cols) = (a.rows() as u64, a.cols() as u64);
    let (n_rows, n_cols) = (n.rows() as u64, n.cols() as u64);
    (a_rows * n_cols + a_cols * n_rows, a_cols * n_cols)
}

/// The fault of a look at a matrix of so many rows and columns, or `None` where it has no row or both numbers are within bounds.
pub(crate) fn look_fault(rows: u64, cols: u64) -> Option<BaseFault>
    ensures { IfSome result (λ fault. (fault ≡ Large rows cols) × IsBeyondBounds rows cols) }
{
    if rows == 0 {
        return None;
    }
    if rows <= GREATEST_SIZE && cols <= GREATEST_SIZE {
        return None;
    }
    Some(BaseFault::Large { rows, cols })
}
