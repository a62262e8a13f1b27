ghost use Rattle.std.specs.Prelude.{◌≡◌, ◌≤◌, List, Some, IsOk, OnOk, slice_get};
ghost use Rattle.sf_object.specs.Shelves.{GrewOver, HasSteps, MeetsSteps, Opens, Shelved, modules_of, step_at};

use crate::presented::Presented;
use sf_field::OutOfMemory;
use sf_matrix::{BaseFault, Bases, Matrix};
use std::alloc::Global;

/// A shelf of resolutions of modules, whose steps are made by need. No call takes away a module or a step, and each number keeps
/// its module.
pub trait Steps {
    // The modules and their steps.
    ghost shelf: { Self → List Shelved };

    /// The number of the module `m`, one for each content. A new module has no step yet.
    fn open(&mut self, alloc: Global, m: &Presented) -> Result<usize, OutOfMemory>
        ensures { Opens (shelf self.old) m.now result (shelf self.new) };

    /// Makes the steps 1 to k of the resolution of module `id` be there. Steps that are there are found, and nothing is looked at
    /// for them; after a fault those that were made stay.
    ///
    /// The shelf is used with tables over which it grew: what was looked at for its steps is there.
    fn ensure<B: Bases>(
        &mut self,
        alloc: Global,
        id: usize,
        k: usize,
        bases: &mut B,
    ) -> Result<(), BaseFault>
        requires module { HasSteps (shelf self.old) id 0 }
        requires grew { GrewOver (shelf self.old) (B.table bases.old) }
        ensures meets { MeetsSteps (shelf self.old) (B.table bases.old) id k result (shelf self.new) (B.table bases.new) }
        ensures there { OnOk result (HasSteps (shelf self.new) id k) }
        ensures found { HasSteps (shelf self.old) id k
            → IsOk result × (shelf self.new ≡ shelf self.old) × (B.table bases.new ≡ B.table bases.old) }
        ensures grew { GrewOver (shelf self.new) (B.table bases.new) };

    /// Step k, counted from 1, of the resolution of module `id`.
    fn step(&self, id: usize, k: usize) -> &Matrix
        requires counted { 1 ≤ k }
        requires there { HasSteps (shelf self.now) id k }
        ensures step { step_at (shelf self.now) id k ≡ Some result.now };

    /// Module `id`.
    fn presented(&self, id: usize) -> &Presented
        requires module { HasSteps (shelf self.now) id 0 }
        ensures module { slice_get (modules_of (shelf self.now)) id ≡ Some result.now };
}
