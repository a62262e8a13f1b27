ghost use Rattle.std.specs.Prelude.{◌≡◌, ◌++◌, IfOk, OnOk};
ghost use Rattle.sf_algebra.specs.MatrixOperations.{stacked};

use crate::matrix::Matrix;
use crate::vector::Vector;
use sf_field::{Copied, OutOfMemory};
use std::alloc::Global;

impl Matrix {
    /// The rows of this matrix, then those of `below`, which goes to the same free module.
    pub fn stack(&self, alloc: Global, below: &Matrix) -> Result<Matrix, OutOfMemory>
        requires ring { below.now.ring ≡ self.now.ring }
        requires target { below.now.target ≡ self.now.target }
        ensures stacked { IfOk result (λ m. m ≡ stacked self.now below.now) }
    {
        let mut rows = Vec::new(alloc);
        push_copies(alloc, &mut rows, &self.rows)?;
        push_copies(alloc, &mut rows, &below.rows)?;
        Ok(Matrix {
            modulus: self.modulus,
            target: self.target.copy(alloc)?,
            rows,
        })
    }
}

/// Adds copies of vectors at the end.
pub(super) fn push_copies(
    alloc: Global,
    rows: &mut Vec<Vector>,
    vectors: &[Vector],
) -> Result<(), OutOfMemory>
    ensures ok { OnOk result (rows.new.items ≡ rows.old.items ++ vectors.now) }
{
    for vector in vectors {
        rows.push(vector.copy(alloc)?)?;
    }
    Ok(())
}
