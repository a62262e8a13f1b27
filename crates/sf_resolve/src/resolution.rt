ghost use Rattle.std.specs.Prelude.{◌≡◌, ◌-◌, ◌≤◌, [], length, Some, IsOk, OnOk, slice_get, Result};
ghost use Rattle.sf_matrix.specs.Meets.{Meets};
ghost use Rattle.sf_object.specs.ResolutionPlans.{resolution_plan};
ghost use Rattle.sf_object.specs.Shelves.{IsKeptOver};
ghost use Rattle.sf_resolve.specs.Making.{AreMoreUpTo, first_told};

use crate::making::make_steps;
use sf_matrix::{BaseFault, Bases, Matrix};
use sf_object::Presented;
use std::alloc::Global;
use std::marker::Model;

/// A module and the first steps of its resolution.
#[derive(Debug, Drop)]
pub struct Resolution {
    presented: Presented,
    steps: Vec<Matrix>,
}

impl Model for Resolution {
    ghost use Rattle.sf_groebner.specs.Resolutions.{IsResolution};
    ghost use Rattle.sf_object.specs.Shelves.{Shelved};

    ghost Value = { Shelved };

    ghost view = { λ r. record { relations = r.presented; steps = r.steps.items } };

    ghost invariant = { λ r. IsResolution r.presented r.steps.items };
}

impl Resolution {
    /// A module, without a step. It allocates nothing yet.
    pub fn new(alloc: Global, m: Presented) -> Resolution
        ensures { result ≡ record { relations = m; steps = [] } }
    {
        Resolution {
            presented: m,
            steps: Vec::new(alloc),
        }
    }

    /// The module.
    pub fn presented(&self) -> &Presented
        ensures { result.now ≡ self.now.relations }
    {
        &self.presented
    }

    /// Step k, counted from 1.
    pub fn step(&self, k: usize) -> &Matrix
        requires counted { 1 ≤ k }
        requires there { k ≤ length self.now.steps }
        ensures step { slice_get self.now.steps (k - 1) ≡ Some result.now }
    {
        &self.steps[k - 1]
    }

    /// Makes the steps 1 to k be there. Steps that are there are found, and nothing is looked at for them; after a fault those that
    /// were made stay.
    pub fn ensure<B: Bases>(
        &mut self,
        alloc: Global,
        k: usize,
        bases: &mut B,
    ) -> Result<(), BaseFault>
        requires kept { IsKeptOver (B.table bases.old) self.old }
        ensures same_module { self.new.relations ≡ self.old.relations }
        ensures more { AreMoreUpTo self.old.steps k self.new.steps }
        ensures kept { IsKeptOver (B.table bases.new) self.new }
        ensures meets { Meets (B.table bases.old) (resolution_plan self.old.relations k) (first_told k self.new.steps result)
            (B.table bases.new) }
        ensures there { OnOk result (k ≤ length self.new.steps) }
        ensures found { k ≤ length self.old.steps
            → IsOk result × (self.new ≡ self.old) × (B.table bases.new ≡ B.table bases.old) }
    {
        make_steps(alloc, self.presented.relations(), &mut self.steps, k, bases)
    }
}
