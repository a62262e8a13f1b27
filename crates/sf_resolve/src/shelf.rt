ghost use Rattle.std.specs.Prelude.{◌≡◌, false, [], Some, IfSome, IsNone, slice_get};
ghost use Rattle.sf_matrix.specs.Tables.{is_among};
ghost use Rattle.sf_object.specs.Shelves.{modules_of};

use crate::resolution::Resolution;
use sf_field::{Copied, OutOfMemory};
use sf_matrix::{BaseFault, Bases, Matrix};
use sf_object::{Presented, Steps};
use std::alloc::Global;
use std::marker::Model;

/// The resolutions of modules, each of which has one number. Contracts see it as the list of the modules and their steps.
#[derive(Debug, Drop)]
pub struct Shelf {
    entries: Vec<Resolution>,
}

impl Model for Shelf {
    ghost use Rattle.std.specs.Prelude.{List};
    ghost use Rattle.sf_object.specs.Shelves.{Shelved};

    ghost Value = { List Shelved };

    ghost view = { λ s. s.entries.items };
}

impl Shelf {
    /// The shelf without modules. It allocates nothing yet.
    pub fn new(alloc: Global) -> Shelf
        ensures { result ≡ [] }
    {
        Shelf {
            entries: Vec::new(alloc),
        }
    }
}

impl Steps for Shelf {
    ghost shelf = { λ s. s };

    fn open(&mut self, alloc: Global, m: &Presented) -> Result<usize, OutOfMemory> {
        if let Some(id) = number_of(&self.entries, m.relations()) {
            return Ok(id);
        }
        let id = self.entries.len();
        let presented = m.copy(alloc)?;
        self.entries.push(Resolution::new(alloc, presented))?;
        Ok(id)
    }

    fn ensure<B: Bases>(
        &mut self,
        alloc: Global,
        id: usize,
        k: usize,
        bases: &mut B,
    ) -> Result<(), BaseFault> {
        let entry = &mut self.entries[id];
        entry.ensure(alloc, k, bases)
    }

    fn step(&self, id: usize, k: usize) -> &Matrix {
        self.entries[id].step(k)
    }

    fn presented(&self, id: usize) -> &Presented {
        self.entries[id].presented()
    }
}

/// The number of the first module with these relations.
fn number_of(entries: &[Resolution], relations: &Matrix) -> Option<usize>
    ensures found { IfSome result (λ k. slice_get (modules_of entries.now) k ≡ Some relations.now) }
    ensures missing { IsNone result → is_among relations.now (modules_of entries.now) ≡ false }
{
    for (k, entry) in entries.iter().enumerate() {
        if *relations == *entry.presented().relations() {
            return Some(k);
        }
    }
    None
}
