ghost use Rattle.std.specs.Prelude.{◌≡◌, IfOk};
ghost use Rattle.std.specs.List.{AllByRecursion};
ghost use Rattle.sf_algebra.specs.Matrices.{row_degrees};
ghost use Rattle.sf_algebra.specs.MatrixOperations.{matrix_product};
ghost use Rattle.sf_matrix.specs.Bounds.{DegreeFits};

use crate::combinations::combination;
use crate::matrix::Matrix;
use crate::vector::Vector;
use sf_field::{Copied, OutOfMemory};
use std::alloc::Global;

impl Matrix {
    /// The product with `next`, which goes on from the free module to which this matrix goes.
    ///
    /// Each row's degree is at most 65,535 above each degree of the target of `next`.
    pub fn product(&self, alloc: Global, next: &Matrix) -> Result<Matrix, OutOfMemory>
        requires ring { next.now.ring ≡ self.now.ring }
        requires meet { row_degrees next.now ≡ self.now.target }
        requires room { AllByRecursion (λ v. DegreeFits next.now.target v.degree) self.now.rows }
        ensures product { IfOk result (λ m. m ≡ matrix_product self.now next.now) }
    {
        self.modulus.facts();
        let mut rows = Vec::with_capacity(alloc, self.rows.len())?;
        for row in &self.rows {
            let terms = combination(alloc, self.modulus, &row.terms, &next.rows)?;
            rows.push(Vector {
                degree: row.degree,
                terms,
            })?;
        }
        Ok(Matrix {
            modulus: self.modulus,
            target: next.target.copy(alloc)?,
            rows,
        })
    }
}
