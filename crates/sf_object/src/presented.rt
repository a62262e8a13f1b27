ghost use Rattle.std.specs.Prelude.{◌≡◌};

use sf_field::OutOfMemory;
use sf_matrix::{Copied, Free, Matrix};
use std::alloc::Global;
use std::marker::Model;

/// A finitely presented module: the free module to which its relations go, modulo their span.
///
/// Only the relations are kept, since they know their free module. Contracts see the module as them.
#[derive(Debug, Drop)]
pub struct Presented {
    relations: Matrix,
}

impl Model for Presented {
    ghost use Rattle.sf_algebra.specs.Matrices.{Matrix};

    ghost Value = { Matrix };

    ghost view = { λ m. m.relations };
}

impl Presented {
    /// The module with these relations.
    pub fn new(relations: Matrix) -> Presented
        ensures relations { result ≡ relations }
    {
        Presented { relations }
    }

    /// The relations, one in each row.
    pub fn relations(&self) -> &Matrix
        ensures relations { result.now ≡ self.now }
    {
        &self.relations
    }

    /// The relations, taken out of the module.
    pub fn into_relations(self) -> Matrix
        ensures relations { result ≡ self }
    {
        self.relations
    }

    /// The free module of the generators.
    pub fn free(&self) -> &Free
        ensures degrees { result.now.degrees ≡ self.now.target }
    {
        self.relations.target()
    }
}

impl Copied for Presented {
    fn copy(&self, alloc: Global) -> Result<Presented, OutOfMemory> {
        Ok(Presented {
            relations: self.relations.copy(alloc)?,
        })
    }
}
