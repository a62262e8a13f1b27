ghost use Rattle.std.specs.Prelude.{◌≡◌, ◌≤◌, [], ◌∷◌, ◌++◌, length, IsOk, OnErr, OnOk, Result};
ghost use Rattle.sf_genmor.specs.PresentationPlans.{IsPresentable, without_rows};
ghost use Rattle.sf_matrix.specs.Meets.{Meets};
ghost use Rattle.sf_object.specs.Kept.{IsKept};
ghost use Rattle.sf_object.specs.ResolutionPlans.{first_step_plan, minimal_plan, next_step_plan, resolution_plan, step_plan};
ghost use Rattle.sf_resolve.specs.Making.{AreMoreUpTo, first_told};

use sf_field::{Copied, OutOfMemory};
use sf_genmor::{basis_of, minimal_generators, syzygies_of};
use sf_matrix::{BaseFault, Bases, Matrix};
use std::alloc::Global;

/// The first step of the resolution of the module with these relations: the minimal generators of their span.
pub fn first_step<B: Bases>(
    alloc: Global,
    relations: &Matrix,
    bases: &mut B,
) -> Result<Matrix, BaseFault>
    ensures { Meets (B.table bases.old) (first_step_plan relations.now) result (B.table bases.new) }
{
    let basis = basis_of(alloc, relations, bases)?;
    minimal_rows(alloc, &basis, bases)
}

/// The step behind `before`: the minimal generators of its syzygies.
pub fn next_step<B: Bases>(
    alloc: Global,
    before: &Matrix,
    bases: &mut B,
) -> Result<Matrix, BaseFault>
    ensures { Meets (B.table bases.old) (next_step_plan before.now) result (B.table bases.new) }
{
    let syzygies = syzygies_of(alloc, before, bases)?;
    minimal_rows(alloc, &syzygies, bases)
}

/// The minimal generators of the span of a reduced basis.
fn minimal_rows<B: Bases>(alloc: Global, basis: &Matrix, bases: &mut B) -> Result<Matrix, BaseFault>
    requires presentable { IsPresentable (B.table bases.old).limit basis.now (without_rows basis.now) }
    ensures { Meets (B.table bases.old) (minimal_plan basis.now) result (B.table bases.new) }
{
    let none = Matrix::new(alloc, basis.modulus(), basis.target().copy(alloc)?);
    minimal_generators(alloc, basis, &none, bases)
}

/// The step behind these ones, of which the last is the first where there is none.
fn step_behind<B: Bases>(
    alloc: Global,
    relations: &Matrix,
    steps: &[Matrix],
    bases: &mut B,
) -> Result<Matrix, BaseFault>
    ensures { Meets (B.table bases.old) (step_plan relations.now steps.now) result (B.table bases.new) }
{
    match steps.last() {
        None => first_step(alloc, relations, bases),
        Some(before) => next_step(alloc, before, bases),
    }
}

/// Makes the steps 1 to k of the resolution of the module with these relations be there. After a fault those that were made stay.
pub(crate) fn make_steps<B: Bases>(
    alloc: Global,
    relations: &Matrix,
    steps: &mut Vec<Matrix>,
    k: usize,
    bases: &mut B,
) -> Result<(), BaseFault>
    requires kept { IsKept (B.table bases.old) (resolution_plan relations.now (length steps.old.items)) steps.old.items }
    ensures more { AreMoreUpTo steps.old.items k steps.new.items }
    ensures kept { IsKept (B.table bases.new) (resolution_plan relations.now (length steps.new.items)) steps.new.items }
    ensures meets { Meets (B.table bases.old) (resolution_plan relations.now k) (first_told k steps.new.items result)
        (B.table bases.new) }
    ensures there { OnOk result (k ≤ length steps.new.items) }
    ensures found { k ≤ length steps.old.items
        → IsOk result × (steps.new.items ≡ steps.old.items) × (B.table bases.new ≡ B.table bases.old) }
{
    if k <= steps.len() {
        return Ok(());
    }
    for _ in steps.len()..k {
        let step = step_behind(alloc, relations, steps, bases)?;
        push_step(steps, step)?;
    }
    Ok(())
}

/// Adds a step at the end.
fn push_step(steps: &mut Vec<Matrix>, step: Matrix) -> Result<(), OutOfMemory>
    ensures ok { OnOk result (steps.new.items ≡ steps.old.items ++ step ∷ []) }
    ensures err { OnErr result (steps.new.items ≡ steps.old.items) }
{
    steps.push(step)?;
    Ok(())
}
