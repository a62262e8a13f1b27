ghost use Rattle.std.specs.Prelude.{◌≡◌, ◌*◌, ◌^◌, ◌<◌, length, IfOk};
ghost use Rattle.std.specs.List.{AllByRecursion};
ghost use Rattle.sf_algebra.specs.Matrices.{row_degrees};
ghost use Rattle.sf_matrix.specs.Bounds.{HasNegative, SumsFit};
ghost use Rattle.sf_functor.specs.Functors.{dual_degrees, hom_matrix, tensor_matrix};

use crate::room::monomials_have_room;
use sf_field::OutOfMemory;
use sf_matrix::Matrix;
use sf_object::Presented;
use std::alloc::Global;

/// What a map `a` of free modules gives between their tensor products with a presented module, from that of its source to that of
/// its target.
pub fn tensor_map(alloc: Global, a: &Matrix, n: &Presented) -> Result<Matrix, OutOfMemory>
    requires columns { length a.now.target * length n.now.target < 2 ^ 64 }
    requires target { SumsFit a.now.target n.now.target }
    requires source { SumsFit (row_degrees a.now) n.now.target }
    ensures tensor { IfOk result (λ m. m ≡ tensor_matrix a.now n.now) }
{
    monomials_have_room(a);
    let units = Matrix::identity(alloc, a.modulus(), n.free())?;
    a.kron(alloc, &units)
}

/// What a map `a` of free modules gives between the modules of maps from them into a presented module: a map of the target of `a` goes
/// to the one that does `a` first. So it goes from those of the target to those of the source.
pub fn hom_map(alloc: Global, a: &Matrix, n: &Presented) -> Result<Matrix, OutOfMemory>
    requires target_negatives { AllByRecursion HasNegative a.now.target }
    requires source_negatives { AllByRecursion HasNegative (row_degrees a.now) }
    requires columns { length a.now.rows * length n.now.target < 2 ^ 64 }
    requires target { SumsFit (dual_degrees (row_degrees a.now)) n.now.target }
    requires source { SumsFit (dual_degrees a.now.target) n.now.target }
    ensures hom { IfOk result (λ m. m ≡ hom_matrix a.now n.now) }
{
    tensor_map(alloc, &a.transpose(alloc)?, n)
}
