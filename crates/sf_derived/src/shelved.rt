ghost use Rattle.std.specs.Prelude.{◌≡◌, [], IfOk};
ghost use Rattle.sf_blocks.specs.MatrixSums.{zero_matrix};
ghost use Rattle.sf_object.specs.Shelves.{HasSteps};
ghost use Rattle.sf_derived.specs.ShelvedMaps.{IsMapOut};

use sf_field::OutOfMemory;
use sf_matrix::{Copied, Free, List, Matrix, Vector};
use sf_object::{Presented, Steps};
use std::alloc::Global;

/// The map out of place `i` of the resolution of module `id`, of which the first `i` steps are there.
pub(crate) fn map_out<S: Steps>(
    alloc: Global,
    i: usize,
    id: usize,
    shelf: &S,
) -> Result<Matrix, OutOfMemory>
    requires there { HasSteps (S.shelf shelf.now) id i }
    ensures { IfOk result (IsMapOut (S.shelf shelf.now) id i) }
{
    if i == 0 {
        return map_to_nothing(alloc, shelf.presented(id));
    }
    shelf.step(id, i).copy(alloc)
}

/// The map from the generators of a module to nothing.
fn map_to_nothing(alloc: Global, m: &Presented) -> Result<Matrix, OutOfMemory>
    ensures { IfOk result (λ z. z ≡ zero_matrix m.now.ring m.now.target []) }
{
    let nothing = Free {
        degrees: List::new(alloc),
    };
    let mut zero = Matrix::new(alloc, m.relations().modulus(), nothing);
    for degree in m.free().degrees.as_slice() {
        zero.push_row(Vector::zero(alloc, *degree))?;
    }
    Ok(zero)
}
