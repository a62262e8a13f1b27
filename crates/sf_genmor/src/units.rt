ghost use Rattle.std.specs.Prelude.{◌≡◌, IfOk};
ghost use Rattle.sf_algebra.specs.Rings.{plain};
ghost use Rattle.sf_genmor.specs.QuotientPlans.{units_over};
ghost use Rattle.sf_genmor.specs.SortedPlaces.{sorted_places};

use sf_field::{Modulus, OutOfMemory};
use sf_matrix::{Copied, Free, Matrix};
use std::alloc::Global;

/// The unit vectors of a free module by ascending degree, and in one degree by position: the reduced basis of all its vectors.
pub fn unit_basis(alloc: Global, modulus: Modulus, free: &Free) -> Result<Matrix, OutOfMemory>
    ensures units { IfOk result (λ m. m ≡ units_over (plain modulus) free.now.degrees) }
{
    let units = Matrix::identity(alloc, modulus, free)?;
    let mut basis = Matrix::new(alloc, modulus, free.copy(alloc)?);
    let places = sorted_places(alloc, free)?;
    for place in &places {
        basis.push_row(units.row(place.1).copy(alloc)?)?;
    }
    Ok(basis)
}

/// The generators by ascending degree and then position, each as its degree and its position.
fn sorted_places(alloc: Global, free: &Free) -> Result<Vec<(i32, usize)>, OutOfMemory>
    ensures places { IfOk result (λ places. places.items ≡ sorted_places 0 free.now.degrees) }
{
    let mut places = Vec::with_capacity(alloc, free.degrees.len())?;
    for (position, degree) in free.degrees.as_slice().iter().enumerate() {
        places.push((*degree, position))?;
    }
    places.sort()?;
    Ok(places)
}
