ghost use Rattle.std.specs.Prelude.{◌≡◌, IfOk};
ghost use Rattle.sf_algebra.specs.MatrixOperations.{negated};

use crate::matrix::Matrix;
use crate::vector::{Vector, negative_terms};
use sf_field::{Copied, OutOfMemory};
use std::alloc::Global;

impl Matrix {
    /// The negative: each row's negative, of the same degree.
    pub fn negate(&self, alloc: Global) -> Result<Matrix, OutOfMemory>
        ensures negated { IfOk result (λ m. m ≡ negated self.now) }
    {
        let mut rows = Vec::with_capacity(alloc, self.rows.len())?;
        for row in &self.rows {
            let terms = negative_terms(alloc, self.modulus, &row.terms)?;
            rows.push(Vector {
                degree: row.degree,
                terms,
            })?;
        }
        Ok(Matrix {
            modulus: self.modulus,
            target: self.target.copy(alloc)?,
            rows,
        })
    }
}
