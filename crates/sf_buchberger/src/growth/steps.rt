ghost use Rattle.std.specs.Prelude.{◌≡◌, ◌<◌, ◌≤◌, length, MatchResult};
ghost use Rattle.sf_algebra.specs.Bounds.{HasSmallSize};
ghost use Rattle.sf_algebra.specs.Matrices.{IsMatrix};
ghost use Rattle.sf_algebra.specs.Rings.{IsOverField, ones};
ghost use Rattle.sf_groebner.specs.GraphRows.{graph_matrix};
ghost use Rattle.sf_groebner.proofs.Spanning.CombinationSums.{row_vector};
ghost use Rattle.sf_pairs.specs.Queue.{count_least};
ghost use Rattle.sf_buchberger.specs.GraphBases.{IsFault};
ghost use Rattle.sf_buchberger.specs.GrowthSteps.{CanDivide, CanDividePair, IsDividedAs, IsGrowthFault, IsPairHandled, pair_vector};
ghost use Rattle.sf_buchberger.specs.Loops.{IsLooping, IsNearer};
ghost use Rattle.sf_buchberger.specs.QueuedPairs.{IsFirst};
ghost use Rattle.sf_buchberger.specs.Turns.{IsTurn, count_at};

use crate::growth::chains::is_chained;
use crate::growth::choice::Turn;
use crate::growth::start::row_sum;
use crate::growth::state::{Growth, Outcome};
use sf_matrix::{BaseFault, Matrix};
use sf_reduce::s_sum;
use std::alloc::Global;

impl Growth {
    /// Takes what has the least degree, and `at` others of this degree before it, and handles it.
    pub(crate) fn step(
        &mut self,
        alloc: Global,
        m: &Matrix,
        generators: &Matrix,
        limit: u32,
        turn: Turn,
        at: usize,
    ) -> Result<Outcome, BaseFault>
        requires loops { IsLooping limit m.now self.old }
        requires generators { generators.now ≡ graph_matrix m.now }
        requires size { HasSmallSize m.now }
        requires limit { limit ≤ 60 }
        requires turn { IsTurn self.old.waiting self.old.pairs turn }
        requires at { at < count_at self.old.waiting self.old.pairs turn }
        ensures step { MatchResult result (λ _. IsNearer limit m.now self.old self.new) (λ fault. IsFault limit m.now fault) }
    {
        match turn {
            Turn::Generator => self.generator_step(alloc, m, generators, limit, at),
            Turn::Pair => self.pair_step(alloc, m, limit, at),
        }
    }

    /// Takes a generator and divides it by the rows.
    fn generator_step(
        &mut self,
        alloc: Global,
        m: &Matrix,
        generators: &Matrix,
        limit: u32,
        at: usize,
    ) -> Result<Outcome, BaseFault>
        requires loops { IsLooping limit m.now self.old }
        requires generators { generators.now ≡ graph_matrix m.now }
        requires size { HasSmallSize m.now }
        requires limit { limit ≤ 60 }
        requires first { IsFirst self.old.waiting self.old.pairs }
        requires at { at < count_least self.old.waiting }
        ensures step { MatchResult result (λ _. IsNearer limit m.now self.old self.new) (λ fault. IsFault limit m.now fault) }
    {
        facts(m);
        let (k, _) = self.waiting.take(at);
        self.divide_row(alloc, m, generators, limit, k as usize)
    }

    /// Divides a row of a matrix by the rows.
    fn divide_row(
        &mut self,
        alloc: Global,
        m: &Matrix,
        generators: &Matrix,
        limit: u32,
        k: usize,
    ) -> Result<Outcome, BaseFault>
        requires limit { limit ≤ 60 }
        requires within { k < length generators.now.rows }
        requires ring { self.old.rows.ring ≡ generators.now.ring }
        requires can { CanDivide limit self.old (row_vector generators.now.rows k) }
        ensures step { MatchResult result (λ outcome. IsDividedAs limit self.old (row_vector generators.now.rows k) outcome self.new)
            (λ fault. IsGrowthFault limit m.now self.old.rows (row_vector generators.now.rows k) fault) }
    {
        let sum = row_sum(alloc, generators, k)?;
        self.grow(alloc, m, limit, sum)
    }

    /// Takes a pair, and divides its S-vector by the rows unless the pair is chained.
    fn pair_step(
        &mut self,
        alloc: Global,
        m: &Matrix,
        limit: u32,
        at: usize,
    ) -> Result<Outcome, BaseFault>
        requires loops { IsLooping limit m.now self.old }
        requires size { HasSmallSize m.now }
        requires limit { limit ≤ 60 }
        requires first { IsFirst self.old.pairs self.old.waiting }
        requires at { at < count_least self.old.pairs }
        ensures step { MatchResult result (λ _. IsNearer limit m.now self.old self.new) (λ fault. IsFault limit m.now fault) }
    {
        facts(m);
        let (first, second) = self.pairs.take(at);
        self.handle_pair(alloc, m, limit, first as usize, second as usize)
    }

    /// Divides the S-vector of a pair by the rows, unless the pair is chained. Then the pair is done.
    fn handle_pair(
        &mut self,
        alloc: Global,
        m: &Matrix,
        limit: u32,
        i: usize,
        j: usize,
    ) -> Result<Outcome, BaseFault>
        requires limit { limit ≤ 60 }
        requires can { CanDividePair limit self.old i j }
        ensures step { MatchResult result (λ outcome. IsPairHandled limit self.old i j outcome self.new)
            (λ fault. IsGrowthFault limit m.now self.old.rows (pair_vector self.old.rows i j) fault) }
    {
        if is_chained(&self.rows, &self.done, i, j) {
            self.done.mark(i, j);
            return Ok(Outcome::Dropped);
        }
        let outcome = self.divide_pair(alloc, m, limit, i, j)?;
        self.done.mark(i, j);
        Ok(outcome)
    }

    /// Divides the S-vector of a pair by the rows.
    fn divide_pair(
        &mut self,
        alloc: Global,
        m: &Matrix,
        limit: u32,
        i: usize,
        j: usize,
    ) -> Result<Outcome, BaseFault>
        requires limit { limit ≤ 60 }
        requires can { CanDividePair limit self.old i j }
        ensures step { MatchResult result (λ outcome. IsDividedAs limit self.old (pair_vector self.old.rows i j) outcome self.new)
            (λ fault. IsGrowthFault limit m.now self.old.rows (pair_vector self.old.rows i j) fault) }
    {
        let sum = s_sum(alloc, &self.rows, i, j)?;
        self.grow(alloc, m, limit, sum)
    }
}

/// Does nothing: its contract says what holds of each matrix.
pub(crate) fn facts(m: &Matrix)
    ensures field { IsOverField m.now.ring }
    ensures weights { m.now.ring.weights ≡ ones }
    ensures matrix { IsMatrix m.now }
{
    let _rows = m.rows();
    m.modulus().facts();
}
