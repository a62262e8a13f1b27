ghost use Rattle.std.specs.Prelude.{◌≡◌, ◌≤◌, ◌<◌, ◌+◌, ◌≤ℤ◌, [], false, length, map, Some, IfOk, IfSome, IsSome, IsNone, OnOk, OnErr, slice_get};
ghost use Rattle.std.specs.List.{AllByRecursion};
ghost use Rattle.sf_algebra.specs.Vectors.{IsVector};
ghost use Rattle.sf_groebner.specs.Reductions.{IsReduction};
ghost use Rattle.sf_groebner.specs.Small.{IsSmallReducedBasis};
ghost use Rattle.sf_groebner.specs.Spans.{InSpan};
ghost use Rattle.sf_matrix.specs.KeptNumbers.{AreKeptNumbers, IsModerate, SpansInto};
ghost use Rattle.sf_matrix.specs.Tables.{GREATEST_REDUCED_DEGREE, IsTable, Opened, graph_at, is_among, matrices_of, matrix_at};
ghost use Rattle.sf_store.specs.Looks.{HasEntered, IsFoundBasis, Tells, entry_of};

use crate::looked::Looked;
use crate::reduction::reduction;
use sf_buchberger::{GraphBasis, whole_basis};
use sf_field::{Copied, OutOfMemory};
use sf_matrix::{BaseFault, Graph, Matrix, Vector};
use sf_minimal::minimal_of;
use sf_pairs::{Strategy, Ticks};
use std::alloc::Global;
use std::marker::Model;

/// The matrices that were looked at for one limit, in the order in which they came, and the ticks that their bases took.
/// Contracts see it as the table.
#[derive(Drop)]
pub(crate) struct Looks {
    limit: u32,
    items: Vec<Looked>,
    ticks: Ticks,
}

impl Model for Looks {
    ghost use Rattle.sf_matrix.specs.Tables.{Table};

    ghost Value = { Table };

    ghost use Rattle.sf_store.specs.Looks.{AreLooks, table_of};

    ghost view = { λ l. table_of l.limit l.items.items };

    ghost invariant = { λ l. AreLooks l.limit l.items.items l.ticks };
}

impl Looks {
    /// No matrix yet, for a limit from 1 to 60. It allocates nothing yet.
    pub(crate) fn new(alloc: Global, limit: u32) -> Looks
        requires least { 1 ≤ limit }
        requires greatest { limit ≤ 60 }
        ensures empty { result ≡ record { limit = limit; entries = [] } }
    {
        Looks {
            limit,
            items: Vec::new(alloc),
            ticks: Ticks::new(),
        }
    }

    /// Takes another limit, from 1 to 60, where no matrix was looked at yet.
    pub(crate) fn set_limit(&mut self, limit: u32)
        requires none { self.old.entries ≡ [] }
        requires least { 1 ≤ limit }
        requires greatest { limit ≤ 60 }
        ensures empty { self.new ≡ record { limit = limit; entries = [] } }
    {
        self.limit = limit;
    }

    /// The limit.
    pub(crate) fn limit(&self) -> u32
        ensures limit { result ≡ self.now.limit }
        ensures least { 1 ≤ result }
        ensures greatest { result ≤ 60 }
    {
        self.limit
    }

    /// The numbers of the rows of `cands` that aren't in the span of `base` and the earlier rows.
    pub(crate) fn minimal(
        &self,
        alloc: Global,
        cands: &Matrix,
        base: &Matrix,
    ) -> Result<Vec<usize>, OutOfMemory>
        requires small { IsSmallReducedBasis self.now.limit cands.now }
        requires degrees { AllByRecursion IsModerate cands.now.target }
        requires ring { base.now.ring ≡ cands.now.ring }
        requires target { base.now.target ≡ cands.now.target }
        requires inside { SpansInto base.now cands.now }
        ensures kept { IfOk result (λ ks. AreKeptNumbers (InSpan base.now) cands.now ks.items) }
    {
        let _limit = self.limit();
        minimal_of(alloc, cands, base)
    }

    /// The number of matrices.
    pub(crate) fn len(&self) -> usize
        ensures len { result ≡ length self.now.entries }
        ensures table { IsTable self.now }
    {
        self.items.len()
    }

    /// The number of ticks, which is that of the matrices.
    pub(crate) fn ticks(&self) -> u64
        ensures ticks { result ≡ length self.now.entries }
    {
        self.ticks.count()
    }

    /// The number of the entry of `m`, or its fault where `m` is large. A matrix that has no entry gets one.
    pub(crate) fn open<S: Strategy>(
        &mut self,
        alloc: Global,
        m: &Matrix,
        strategy: &mut S,
    ) -> Result<usize, BaseFault>
        ensures opened { Opened self.old m.now result self.new }
    {
        if let Some(k) = number_of(&self.items, m) {
            return self.told(k);
        }
        let k = self.enter(alloc, m, strategy)?;
        self.told(k)
    }

    /// What entry `k` says of its matrix.
    fn told(&self, k: usize) -> Result<usize, BaseFault>
        requires entry { IsSome (slice_get self.now.entries k) }
        ensures told { IfSome (slice_get self.now.entries k) (λ e. Tells self.now.limit k e result) }
    {
        let looked = &self.items[k];
        match looked.basis {
            Some(_) => Ok(k),
            None => Err(BaseFault::Large {
                rows: looked.matrix.rows() as u64,
                cols: looked.matrix.cols() as u64,
            }),
        }
    }

    /// Adds an entry for `m`, which has none, and answers its number.
    ///
    /// The room for it comes first, so that each basis that is computed is kept.
    fn enter<S: Strategy>(
        &mut self,
        alloc: Global,
        m: &Matrix,
        strategy: &mut S,
    ) -> Result<usize, OutOfMemory>
        requires missing { is_among m.now (matrices_of self.old.entries) ≡ false }
        ensures number { IfOk result (λ k. k ≡ length self.old.entries) }
        ensures entered { OnOk result (HasEntered self.old m.now self.new) }
        ensures kept { OnErr result (self.new ≡ self.old) }
    {
        self.items.reserve(1)?;
        let matrix = m.copy(alloc)?;
        let basis = found_basis(alloc, m, self.limit, strategy, &mut self.ticks)?;
        let k = self.items.len();
        self.items.push_reserved(Looked { matrix, basis });
        Ok(k)
    }

    /// What the basis of entry `k` gives.
    pub(crate) fn at(&self, k: usize) -> &Graph
        requires entry { IsSome (graph_at self.now k) }
        ensures graph { graph_at self.now k ≡ Some result.now }
    {
        let looked = &self.items[k];
        let Some(basis) = &looked.basis else {
            unreachable!()
        };
        &basis.graph
    }

    /// The reduction of a vector by the rows of the matrix of entry `k`.
    pub(crate) fn reduce(
        &self,
        alloc: Global,
        k: usize,
        v: &Vector,
    ) -> Result<(Vector, Vector), OutOfMemory>
        requires entry { IsSome (graph_at self.now k) }
        requires vector { IfSome (matrix_at self.now k) (λ m. IsVector m.ring m.target v.now) }
        requires room { v.now.degree ≤ℤ GREATEST_REDUCED_DEGREE }
        ensures reduction { IfOk result (λ d. IfSome (matrix_at self.now k) (λ m. IsReduction m v.now d.0 d.1)) }
    {
        let looked = &self.items[k];
        let Some(basis) = &looked.basis else {
            unreachable!()
        };
        reduction(alloc, &looked.matrix, basis, v)
    }
}

/// The number of the first of these that is a look at `m`.
fn number_of(items: &[Looked], m: &Matrix) -> Option<usize>
    ensures found { IfSome result (λ k. slice_get (matrices_of (map entry_of items.now)) k ≡ Some m.now) }
    ensures missing { IsNone result → is_among m.now (matrices_of (map entry_of items.now)) ≡ false }
{
    for (k, looked) in items.iter().enumerate() {
        if *m == looked.matrix {
            return Some(k);
        }
    }
    None
}

/// The basis of the graph of `m`, or none where `m` is large. There is one more tick, unless memory is wanting.
fn found_basis<S: Strategy>(
    alloc: Global,
    m: &Matrix,
    limit: u32,
    strategy: &mut S,
    ticks: &mut Ticks,
) -> Result<Option<GraphBasis>, OutOfMemory>
    requires least { 1 ≤ limit }
    requires greatest { limit ≤ 60 }
    requires ticks { ticks.old < u64.MAX }
    ensures found { IfOk result (IsFoundBasis limit m.now) }
    ensures ticked { OnOk result (ticks.new ≡ ticks.old + 1) }
    ensures kept { OnErr result (ticks.new ≡ ticks.old) }
{
    match whole_basis(alloc, m, limit, strategy, ticks) {
        Ok(basis) => Ok(Some(basis)),
        Err(BaseFault::Large { .. }) => Ok(None),
        Err(BaseFault::Memory) => Err(OutOfMemory),
    }
}
