ghost use Rattle.std.specs.Prelude.{◌≡◌, IfOk};
ghost use Rattle.sf_algebra.specs.MatrixOperations.{unit_vector, identity};
ghost use Rattle.sf_algebra.specs.Rings.{plain};

use crate::free::Free;
use crate::matrix::Matrix;
use crate::vector::{Term, Vector};
use sf_field::{Copied, Modulus, OutOfMemory};
use sf_mono::Mono;
use std::alloc::Global;

impl Matrix {
    /// The identity of a free module: its rows are the unit vectors of the generators.
    pub fn identity(alloc: Global, modulus: Modulus, f: &Free) -> Result<Matrix, OutOfMemory>
        ensures identity { IfOk result (λ m. m ≡ identity (plain modulus) f.now.degrees) }
    {
        modulus.facts();
        let degrees = f.degrees.as_slice();
        let mut rows = Vec::with_capacity(alloc, degrees.len())?;
        for (position, degree) in degrees.iter().enumerate() {
            rows.push(unit_vector(alloc, *degree, position as u64)?)?;
        }
        Ok(Matrix {
            modulus,
            target: f.copy(alloc)?,
            rows,
        })
    }
}

/// The unit vector of the generator of this degree at this position.
fn unit_vector(alloc: Global, degree: i32, position: u64) -> Result<Vector, OutOfMemory>
    ensures { IfOk result (λ v. v ≡ unit_vector degree position) }
{
    let mut terms = Vec::with_capacity(alloc, 1)?;
    terms.push(Term {
        position,
        monomial: Mono::one(),
        coefficient: 1,
    })?;
    Ok(Vector { degree, terms })
}
