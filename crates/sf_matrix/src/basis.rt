ghost use Rattle.std.specs.Prelude.{◌≡◌};
ghost use Rattle.sf_matrix.specs.declared.basis.BaseFault.TheVariants.{Memory};

use crate::matrix::Matrix;
use sf_field::OutOfMemory;
use thiserror::Error;

/// What the reduced basis of a matrix's graph gives: the basis of the span, its coefficients, and the syzygies.
#[derive(Debug, Drop)]
pub struct Graph {
    /// The reduced basis of the span of the rows, over the matrix's target.
    pub basis: Matrix,
    /// For each row of the basis, the coefficients by which it is a combination of the matrix's rows.
    pub coefficients: Matrix,
    /// The reduced basis of the syzygies, over the free module of the rows' degrees.
    pub syzygies: Matrix,
}

/// Why a basis isn't given.
#[derive(Clone, Copy, Debug, PartialEq, Eq, Error)]
pub enum BaseFault {
    #[error("out of memory")]
    Memory,
    /// A matrix with so many rows and columns isn't small for the limit.
    #[error("the basis of a matrix with {rows} rows and {cols} columns is too large")]
    Large { rows: u64, cols: u64 },
}

impl From<OutOfMemory> for BaseFault {
    ghost from_gives = { λ _ fault. fault ≡ Memory };

    fn from(_error: OutOfMemory) -> BaseFault {
        BaseFault::Memory
    }
}
