ghost use Rattle.std.specs.Prelude.{Result};
ghost use Rattle.sf_matrix.specs.Meets.{Meets};
ghost use Rattle.sf_object.specs.Faults.{IsBetween};
ghost use Rattle.sf_module.specs.HomologyPlans.{IsComplexAt, homology_plan, place_between};
ghost use Rattle.sf_module.specs.ModulePlans.{IsWellDefined, cokernel_plan, image_plan, kernel_plan};

use sf_genmor::{Presentation, basis_of, first_blocks_of, present, present_quotient};
use sf_matrix::{BaseFault, Bases, Matrix};
use sf_object::{Map, Presented};
use std::alloc::Global;

/// The homology of a complex at the module `here`, to which the map `before` goes, and from which the map `after` goes to the module
/// `beyond`: generators and relations of the vectors that `after` sends into the span of the relations beyond, modulo the span of
/// `before` and of the relations here.
///
/// It looks at `after` with the relations beyond behind it, at `before` with the relations here behind it, and at what the
/// presentation needs.
pub fn homology<B: Bases>(
    alloc: Global,
    before: &Matrix,
    here: &Presented,
    after: &Matrix,
    beyond: &Presented,
    bases: &mut B,
) -> Result<Presentation, BaseFault>
    requires complex { IsComplexAt (place_between before.now here.now after.now beyond.now) }
    ensures { Meets (B.table bases.old) (homology_plan (place_between before.now here.now after.now beyond.now)) result
        (B.table bases.new) }
{
    let cycles = first_blocks_of(alloc, after, beyond.relations(), bases)?;
    let rows = before.stack(alloc, here.relations())?;
    let boundaries = basis_of(alloc, &rows, bases)?;
    present(alloc, &cycles, &boundaries, bases)
}

/// The kernel of a map: generators and relations of the vectors that are sent into the span of the target's relations, modulo the
/// span of the source's.
///
/// It looks at the matrix with the target's relations behind it, at the source's relations, and at what the presentation needs.
pub fn kernel<B: Bases>(alloc: Global, f: &Map, bases: &mut B) -> Result<Presentation, BaseFault>
    requires map { IsWellDefined f.now }
    ensures { Meets (B.table bases.old) (kernel_plan f.now) result (B.table bases.new) }
{
    let cycles = first_blocks_of(alloc, &f.matrix, f.target.relations(), bases)?;
    let base = basis_of(alloc, f.source.relations(), bases)?;
    present(alloc, &cycles, &base, bases)
}

/// The image of a map: generators and relations of the span of its rows and the target's relations, modulo the span of these.
///
/// It looks at the matrix with the target's relations behind it, at these, and at what the presentation needs.
pub fn image<B: Bases>(alloc: Global, f: &Map, bases: &mut B) -> Result<Presentation, BaseFault>
    requires between { IsBetween f.now }
    ensures { Meets (B.table bases.old) (image_plan f.now) result (B.table bases.new) }
{
    let relations = f.target.relations();
    let rows = f.matrix.stack(alloc, relations)?;
    let whole = basis_of(alloc, &rows, bases)?;
    let base = basis_of(alloc, relations, bases)?;
    present(alloc, &whole, &base, bases)
}

/// The cokernel of a map: generators and relations of all vectors of the target's free module, modulo the span of the map's rows
/// and the target's relations.
///
/// It looks at the matrix with the target's relations behind it, and at what the presentation needs.
pub fn cokernel<B: Bases>(alloc: Global, f: &Map, bases: &mut B) -> Result<Presentation, BaseFault>
    requires between { IsBetween f.now }
    ensures { Meets (B.table bases.old) (cokernel_plan f.now) result (B.table bases.new) }
{
    let rows = f.matrix.stack(alloc, f.target.relations())?;
    present_quotient(alloc, &rows, bases)
}
