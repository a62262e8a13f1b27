ghost use Rattle.std.specs.Prelude.{◌≡◌, ◌≤◌, []};

use crate::looks::Looks;
use sf_field::OutOfMemory;
use sf_matrix::{BaseFault, Bases, Graph, Matrix, Vector};
use sf_pairs::FirstStrategy;
use std::alloc::Global;
use std::marker::Model;

/// A table for tests, which needs no box: it takes the first pair. Contracts see it as the table.
#[derive(Drop)]
pub struct PlainBases {
    looks: Looks,
}

impl Model for PlainBases {
    ghost use Rattle.sf_matrix.specs.Tables.{Table};

    ghost Value = { Table };

    ghost view = { λ s. s.looks };
}

impl PlainBases {
    /// No matrix yet, for a limit from 1 to 60. It allocates nothing yet.
    pub fn new(alloc: Global, limit: u32) -> PlainBases
        requires least { 1 ≤ limit }
        requires greatest { limit ≤ 60 }
        ensures empty { result ≡ record { limit = limit; entries = [] } }
    {
        PlainBases {
            looks: Looks::new(alloc, limit),
        }
    }
}

impl Bases for PlainBases {
    ghost table = { λ s. s };

    fn open(&mut self, alloc: Global, m: &Matrix) -> Result<usize, BaseFault> {
        self.looks.open(alloc, m, &mut FirstStrategy)
    }

    fn at(&self, k: usize) -> &Graph {
        self.looks.at(k)
    }

    fn reduce(&self, alloc: Global, k: usize, v: &Vector) -> Result<(Vector, Vector), OutOfMemory> {
        self.looks.reduce(alloc, k, v)
    }

    fn minimal(
        &mut self,
        alloc: Global,
        cands: &Matrix,
        base: &Matrix,
    ) -> Result<Vec<usize>, OutOfMemory> {
        self.looks.minimal(alloc, cands, base)
    }
}
