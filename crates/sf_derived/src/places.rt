ghost use Rattle.std.specs.Prelude.{◌≡◌, Result};
ghost use Rattle.sf_functor.specs.FunctorLaws.{IsComplexBeside};
ghost use Rattle.sf_functor.specs.Functors.{tensor_matrix, tensor_relations};
ghost use Rattle.sf_functor.specs.TensorPlans.{relations_between};
ghost use Rattle.sf_genmor.specs.LookPlans.{basis_plan, blocks_plan};
ghost use Rattle.sf_matrix.specs.Meets.{Meets};
ghost use Rattle.sf_module.specs.HomologyPlans.{homology_plan};
ghost use Rattle.sf_derived.specs.Places.{tensor_place};
ghost use Rattle.sf_derived.specs.Room.{HasRoomBeside};

use crate::sizes::{look_fault, size_beside};
use sf_functor::{tensor_free, tensor_map};
use sf_genmor::{Presentation, basis_of, first_blocks_of, present};
use sf_matrix::{BaseFault, Bases, Free, List, Matrix};
use sf_object::{Presented, matrix_facts};
use std::alloc::Global;

/// The homology, between the tensor products with `n`, at the free module where the map `a` ends and the map `b` begins.
///
/// It looks at what `b` gives with the relations behind it, at what `a` gives with those behind it, and at what the presentation
/// needs. Sizes are asked on numbers before a matrix is made.
pub fn homology_beside<B: Bases>(
    alloc: Global,
    a: &Matrix,
    b: &Matrix,
    n: &Presented,
    bases: &mut B,
) -> Result<Presentation, BaseFault>
    requires complex { IsComplexBeside a.now b.now n.now }
    requires first { HasRoomBeside a.now n.now }
    requires second { HasRoomBeside b.now n.now }
    ensures { Meets (B.table bases.old) (homology_plan (tensor_place a.now b.now n.now)) result (B.table bases.new) }
{
    let cycles = cycles_beside(alloc, b, n, bases)?;
    let boundaries = boundaries_beside(alloc, a, n, bases)?;
    present(alloc, &cycles, &boundaries, bases)
}

/// The reduced basis of the vectors that what `b` gives sends into relations.
///
/// Where it has no rows there is no look, and its columns, of which there may be more than memory has, aren't made.
fn cycles_beside<B: Bases>(
    alloc: Global,
    b: &Matrix,
    n: &Presented,
    bases: &mut B,
) -> Result<Matrix, BaseFault>
    requires ring { b.now.ring ≡ n.now.ring }
    requires room { HasRoomBeside b.now n.now }
    ensures { Meets (B.table bases.old) (blocks_plan (tensor_matrix b.now n.now) (tensor_relations b.now.target n.now)) result
        (B.table bases.new) }
{
    matrix_facts(b);
    let (rows, cols) = size_beside(b, n.relations());
    if rows == 0 {
        let target = Free {
            degrees: List::new(alloc),
        };
        return Ok(Matrix::new(alloc, b.modulus(), target));
    }
    if let Some(fault) = look_fault(rows, cols) {
        return Err(fault);
    }
    let map = tensor_map(alloc, b, n)?;
    let beyond = tensor_free(alloc, b.target(), n)?;
    first_blocks_of(alloc, &map, beyond.relations(), bases)
}

/// The reduced basis of the span of what `a` gives and of the relations of the module to which it goes.
fn boundaries_beside<B: Bases>(
    alloc: Global,
    a: &Matrix,
    n: &Presented,
    bases: &mut B,
) -> Result<Matrix, BaseFault>
    requires ring { a.now.ring ≡ n.now.ring }
    requires room { HasRoomBeside a.now n.now }
    ensures { Meets (B.table bases.old) (basis_plan (relations_between a.now n.now)) result (B.table bases.new) }
{
    matrix_facts(a);
    let (rows, cols) = size_beside(a, n.relations());
    if let Some(fault) = look_fault(rows, cols) {
        return Err(fault);
    }
    let map = tensor_map(alloc, a, n)?;
    let here = tensor_free(alloc, a.target(), n)?;
    let stack = map.stack(alloc, here.relations())?;
    basis_of(alloc, &stack, bases)
}
