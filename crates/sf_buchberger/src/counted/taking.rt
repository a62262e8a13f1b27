ghost use Rattle.std.specs.Prelude.{◌≡◌};
ghost use Rattle.sf_groebner.specs.GraphRows.{graph_matrix};
ghost use Rattle.sf_variables.specs.Variables.{IsMatrixInVariables};
ghost use Rattle.sf_counting.specs.CountLaws.{AreGraphRows};
ghost use Rattle.sf_buchberger.specs.Eliminations.{GoesOn, IsElimination};

use crate::counted::elimination::Elimination;
use crate::counted::finding::Found;
use sf_field::OutOfMemory;
use sf_matrix::Matrix;
use sf_pairs::{PairQueue, Strategy};
use std::alloc::Global;

impl Elimination {
    /// Clears the generators of its degree, until as many elements as wanted are found; the others are dropped. `false`
    /// where it fails.
    pub(crate) fn take_generators<S: Strategy>(
        &mut self,
        alloc: Global,
        m: &Matrix,
        rows: &Matrix,
        generators: &Matrix,
        waiting: &mut PairQueue,
        wanted: usize,
        strategy: &mut S,
    ) -> Result<bool, OutOfMemory>
        requires elimination { IsElimination m.now self.old }
        requires rows { AreGraphRows self.old.variables m.now rows.now.rows }
        requires generators { generators.now ≡ graph_matrix m.now }
        requires variables { IsMatrixInVariables self.old.variables m.now }
        ensures goes_on { GoesOn m.now self.old self.new }
    {
        for _ in 0..count_of(waiting, self.degree) {
            let wanted = self.found.len() < wanted;
            if let Some((k, _)) = next(waiting, wanted, strategy) {
                let found = self.take_generator(alloc, m, rows, generators, k as usize)?;
                if !tell(strategy, found) {
                    return Ok(false);
                }
            }
        }
        Ok(true)
    }

    /// The same with the pairs of rows of its degree.
    pub(crate) fn take_pairs<S: Strategy>(
        &mut self,
        alloc: Global,
        m: &Matrix,
        rows: &Matrix,
        pairs: &mut PairQueue,
        wanted: usize,
        strategy: &mut S,
    ) -> Result<bool, OutOfMemory>
        requires elimination { IsElimination m.now self.old }
        requires rows { AreGraphRows self.old.variables m.now rows.now.rows }
        ensures goes_on { GoesOn m.now self.old self.new }
    {
        for _ in 0..count_of(pairs, self.degree) {
            let wanted = self.found.len() < wanted;
            if let Some((i, j)) = next(pairs, wanted, strategy) {
                let found = self.take_pair(alloc, m, rows, i as usize, j as usize)?;
                if !tell(strategy, found) {
                    return Ok(false);
                }
            }
        }
        Ok(true)
    }
}

/// How many pairs there are of a degree, below which there is none.
fn count_of(queue: &PairQueue, degree: i32) -> usize {
    if queue.least() == Some(i64::from(degree)) {
        queue.count_least()
    } else {
        0
    }
}

/// Takes the pair of least degree that the strategy chooses among them, the latest first: its rows are nearly reduced in this
/// degree, so few places of its S-vector are cleared. Where none is wanted one is dropped.
fn next<S: Strategy>(queue: &mut PairQueue, wanted: bool, strategy: &mut S) -> Option<(u32, u32)> {
    let count = queue.count_least();
    if count == 0 {
        return None;
    }
    if wanted {
        let at = strategy.choose(count);
        Some(queue.take(count - 1 - at))
    } else {
        let _ = queue.take(count - 1);
        None
    }
}

/// Lets a strategy hear whether nothing was left. `false` where a pair failed.
fn tell<S: Strategy>(strategy: &mut S, found: Found) -> bool {
    match found {
        Found::Failed => return false,
        Found::Passed => {}
        Found::Zero => strategy.told(true),
        Found::Element => strategy.told(false),
    }
    true
}
