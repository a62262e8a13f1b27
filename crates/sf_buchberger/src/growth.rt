ghost use Rattle.std.specs.Prelude.{◌≡◌, ◌≤◌, MatchResult};
ghost use Rattle.sf_algebra.specs.Bounds.{HasSmallSize};
ghost use Rattle.sf_groebner.specs.GraphRows.{graph_matrix};
ghost use Rattle.sf_buchberger.specs.GraphBases.{IsFault};
ghost use Rattle.sf_buchberger.specs.Growth.{IsGrown};

mod chains;
mod choice;
mod done;
pub(crate) mod leads;
pub(crate) mod pairing;
mod rows;
pub(crate) mod start;
mod state;
pub(crate) mod steps;

use crate::growth::start::start;
use crate::growth::state::Outcome;
use sf_matrix::{BaseFault, Matrix};
use sf_pairs::Strategy;
use std::alloc::Global;

/// The rows of a Gröbner basis of the graph of `m`, whose generators are given.
///
/// Generators and pairs of least degree come first, by the strategy's choice. The matrix is large exactly where a
/// rest has a lead above the limit, or where a 4,097th row is found.
pub(crate) fn grown_rows<S: Strategy>(
    alloc: Global,
    m: &Matrix,
    generators: &Matrix,
    limit: u32,
    strategy: &mut S,
) -> Result<Matrix, BaseFault>
    requires generators { generators.now ≡ graph_matrix m.now }
    requires size { HasSmallSize m.now }
    requires limit { limit ≤ 60 }
    ensures rows { MatchResult result (λ rows. IsGrown limit m.now rows) (λ fault. IsFault limit m.now fault) }
{
    let mut growth = start(alloc, generators)?;
    while let Some(turn) = growth.turn() {
        let at = strategy.choose(growth.count(turn));
        let outcome = growth.step(alloc, m, generators, limit, turn, at)?;
        tell(strategy, outcome);
    }
    Ok(growth.rows)
}

/// Lets a strategy hear whether a division left no rest.
fn tell<S: Strategy>(strategy: &mut S, outcome: Outcome) {
    match outcome {
        Outcome::Dropped => {}
        Outcome::Zero => strategy.told(true),
        Outcome::Grown => strategy.told(false),
    }
}
