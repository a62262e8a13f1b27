ghost use Rattle.std.specs.Prelude.{◌≡◌, ◌≤◌, ◌<◌, [], length, IfOk};
ghost use Rattle.std.specs.List.{AllByRecursion};
ghost use Rattle.sf_algebra.specs.Bounds.{HasSmallSize};
ghost use Rattle.sf_groebner.specs.Small.{IsSmallReducedBasis};
ghost use Rattle.sf_groebner.specs.Spans.{InSpan};
ghost use Rattle.sf_matrix.specs.KeptNumbers.{AreKeptNumbers, IsModerate, SpansInto};
ghost use Rattle.sf_matrix.specs.Tables.{IsTable, Opened};

use crate::looks::Looks;
use sf_field::OutOfMemory;
use sf_matrix::{BaseFault, Bases, Graph, Matrix, Vector};
use sf_pairs::Strategy;
use std::alloc::Global;
use std::marker::Model;

/// The matrices that a session looked at, with the strategy by which their bases are computed. Contracts see it as the
/// table.
#[derive(Drop)]
pub struct Store {
    strategy: Box<dyn Strategy>,
    looks: Looks,
}

impl Model for Store {
    ghost use Rattle.sf_matrix.specs.Tables.{Table};

    ghost Value = { Table };

    ghost view = { λ s. s.looks };
}

impl Store {
    /// No matrix yet, for a limit from 1 to 60. It allocates nothing yet.
    pub fn new(alloc: Global, limit: u32, strategy: Box<dyn Strategy>) -> Store
        requires least { 1 ≤ limit }
        requires greatest { limit ≤ 60 }
        ensures empty { result ≡ record { limit = limit; entries = [] } }
    {
        Store {
            strategy,
            looks: Looks::new(alloc, limit),
        }
    }

    /// Takes another limit, from 1 to 60, where no matrix was looked at yet.
    pub fn set_limit(&mut self, limit: u32)
        requires none { self.old.entries ≡ [] }
        requires least { 1 ≤ limit }
        requires greatest { limit ≤ 60 }
        ensures empty { self.new ≡ record { limit = limit; entries = [] } }
    {
        self.looks.set_limit(limit);
    }

    /// The limit.
    pub fn limit(&self) -> u32
        ensures limit { result ≡ self.now.limit }
        ensures least { 1 ≤ result }
        ensures greatest { result ≤ 60 }
    {
        self.looks.limit()
    }

    /// The number of matrices that were looked at.
    pub fn entries(&self) -> u64
        ensures entries { result ≡ length self.now.entries }
        ensures table { IsTable self.now }
    {
        self.looks.len() as u64
    }

    /// The number of bases that were computed: one for each matrix, be it large or not.
    pub fn ticks(&self) -> u64
        ensures ticks { result ≡ length self.now.entries }
    {
        self.looks.ticks()
    }
}

// What the trait asks of calls that change a table stands here again: with a boxed strategy in it, a caller that has conditions
// of its own is proved only so.
impl Bases for Store {
    ghost table = { λ s. s };

    fn open(&mut self, alloc: Global, m: &Matrix) -> Result<usize, BaseFault>
        requires size { HasSmallSize m.now }
        requires row { 0 < length m.now.rows }
        ensures { Opened self.old m.now result self.new }
    {
        self.looks.open(alloc, m, &mut self.strategy)
    }

    fn at(&self, k: usize) -> &Graph {
        self.looks.at(k)
    }

    fn reduce(&self, alloc: Global, k: usize, v: &Vector) -> Result<(Vector, Vector), OutOfMemory> {
        self.looks.reduce(alloc, k, v)
    }

    fn minimal(
        &mut self,
        alloc: Global,
        cands: &Matrix,
        base: &Matrix,
    ) -> Result<Vec<usize>, OutOfMemory>
        requires small { IsSmallReducedBasis self.old.limit cands.now }
        requires degrees { AllByRecursion IsModerate cands.now.target }
        requires ring { base.now.ring ≡ cands.now.ring }
        requires target { base.now.target ≡ cands.now.target }
        requires inside { SpansInto base.now cands.now }
        ensures same { self.new ≡ self.old }
        ensures kept { IfOk result (λ ks. AreKeptNumbers (InSpan base.now) cands.now ks.items) }
    {
        self.looks.minimal(alloc, cands, base)
    }
}
