ghost use Rattle.std.specs.Prelude.{◌≡◌, ◌*◌, ◌^◌, ◌<◌, length, map, neg_ℤ, IfOk};
ghost use Rattle.std.specs.List.{AllByRecursion};
ghost use Rattle.sf_algebra.specs.Matrices.{row_degrees};
ghost use Rattle.sf_matrix.specs.Bounds.{HasNegative, SumsFit};
ghost use Rattle.sf_functor.specs.Functors.{dual_degrees, hom_relations, tensor_relations};

use crate::room::monomials_have_room;
use sf_field::OutOfMemory;
use sf_matrix::{Free, List, Matrix};
use sf_object::Presented;
use std::alloc::Global;

/// The tensor product of a free module and a presented module.
///
/// Its generators are the pairs of a generator of each, those of the first generator of `d` first. Degrees add. The relations of `n`
/// stand once for each generator of `d`.
pub fn tensor_free(alloc: Global, d: &Free, n: &Presented) -> Result<Presented, OutOfMemory>
    requires columns { length d.now.degrees * length n.now.target < 2 ^ 64 }
    requires generators { SumsFit d.now.degrees n.now.target }
    requires relations { SumsFit d.now.degrees (row_degrees n.now) }
    ensures tensor { IfOk result (λ m. m ≡ tensor_relations d.now.degrees n.now) }
{
    let relations = n.relations();
    monomials_have_room(relations);
    let units = Matrix::identity(alloc, relations.modulus(), d)?;
    Ok(Presented::new(units.kron(alloc, relations)?))
}

/// The module of maps from a free module into a presented module.
///
/// Its generators are the pairs of a generator of each, those of the first generator of `d` first: the pair stands for the map that
/// sends this generator of `d` to that of `n`, and the others to 0. Its degree is that of the generator of `n` less that of `d`. The
/// relations of `n` stand once for each generator of `d`.
pub fn hom_free(alloc: Global, d: &Free, n: &Presented) -> Result<Presented, OutOfMemory>
    requires negatives { AllByRecursion HasNegative d.now.degrees }
    requires columns { length d.now.degrees * length n.now.target < 2 ^ 64 }
    requires generators { SumsFit (dual_degrees d.now.degrees) n.now.target }
    requires relations { SumsFit (dual_degrees d.now.degrees) (row_degrees n.now) }
    ensures hom { IfOk result (λ m. m ≡ hom_relations d.now.degrees n.now) }
{
    tensor_free(alloc, &dual(alloc, d)?, n)
}

/// The dual of a free module: degrees change sign.
fn dual(alloc: Global, d: &Free) -> Result<Free, OutOfMemory>
    requires { AllByRecursion HasNegative d.now.degrees }
    ensures { IfOk result (λ f. f.degrees ≡ dual_degrees d.now.degrees) }
{
    let mut degrees = List::with_capacity(alloc, d.degrees.len())?;
    for degree in d.degrees.as_slice() {
        degrees.push(negative_degree(*degree))?;
    }
    Ok(Free { degrees })
}

/// The negative of a degree.
fn negative_degree(degree: i32) -> i32
    requires { HasNegative degree }
    ensures { result ≡ neg_ℤ degree }
{
    -degree
}
