ghost use Rattle.std.specs.Prelude.{◌≡◌, ◌≤◌, IfSome, Result, slice_get};
ghost use Rattle.sf_matrix.specs.Meets.{Meets};
ghost use Rattle.sf_object.specs.Shelves.{GrewOver, HasSteps, modules_of};
ghost use Rattle.sf_derived.specs.DerivedPlans.{ext_plan, tor_plan};
ghost use Rattle.sf_derived.specs.Room.{AreUsualTogether};

use crate::places::homology_beside;
use crate::shelved::map_out;
use sf_genmor::Presentation;
use sf_matrix::{BaseFault, Bases};
use sf_object::{Presented, Steps, matrix_facts};
use std::alloc::Global;

/// Ext at place `i` of module `id` of the shelf and `n`: the homology of the maps from the resolution to `n`.
///
/// It looks at what the first `i + 1` steps need, and at what the homology needs.
pub fn ext<S: Steps, B: Bases>(
    alloc: Global,
    i: u32,
    id: usize,
    n: &Presented,
    shelf: &mut S,
    bases: &mut B,
) -> Result<Presentation, BaseFault>
    requires module { HasSteps (S.shelf shelf.old) id 0 }
    requires grew { GrewOver (S.shelf shelf.old) (B.table bases.old) }
    requires limit { (B.table bases.old).limit ≤ 60 }
    requires usual { IfSome (slice_get (modules_of (S.shelf shelf.old)) id) (λ m. AreUsualTogether m n.now) }
    ensures meets { IfSome (slice_get (modules_of (S.shelf shelf.old)) id)
        (λ m. Meets (B.table bases.old) (ext_plan m n.now i) result (B.table bases.new)) }
    ensures grew { GrewOver (S.shelf shelf.new) (B.table bases.new) }
    ensures modules { modules_of (S.shelf shelf.new) ≡ modules_of (S.shelf shelf.old) }
{
    let place = i as usize;
    matrix_facts(n.relations());
    shelf.ensure(alloc, id, place + 1, bases)?;
    let arriving = map_out(alloc, place, id, shelf)?.transpose(alloc)?;
    let leaving = shelf.step(id, place + 1).transpose(alloc)?;
    homology_beside(alloc, &arriving, &leaving, n, bases)
}

/// Tor at place `i` of module `id` of the shelf and `n`: the homology of the tensor product of the resolution and `n`.
///
/// It looks at what the first `i + 1` steps need, and at what the homology needs.
pub fn tor<S: Steps, B: Bases>(
    alloc: Global,
    i: u32,
    id: usize,
    n: &Presented,
    shelf: &mut S,
    bases: &mut B,
) -> Result<Presentation, BaseFault>
    requires module { HasSteps (S.shelf shelf.old) id 0 }
    requires grew { GrewOver (S.shelf shelf.old) (B.table bases.old) }
    requires limit { (B.table bases.old).limit ≤ 60 }
    requires usual { IfSome (slice_get (modules_of (S.shelf shelf.old)) id) (λ m. AreUsualTogether m n.now) }
    ensures meets { IfSome (slice_get (modules_of (S.shelf shelf.old)) id)
        (λ m. Meets (B.table bases.old) (tor_plan m n.now i) result (B.table bases.new)) }
    ensures grew { GrewOver (S.shelf shelf.new) (B.table bases.new) }
    ensures modules { modules_of (S.shelf shelf.new) ≡ modules_of (S.shelf shelf.old) }
{
    let place = i as usize;
    matrix_facts(n.relations());
    shelf.ensure(alloc, id, place + 1, bases)?;
    let leaving = map_out(alloc, place, id, shelf)?;
    let arriving = shelf.step(id, place + 1);
    homology_beside(alloc, arriving, &leaving, n, bases)
}
