ghost use Rattle.std.specs.Prelude.{◌≡◌, ◌≤◌, ℕ, length, IfOk};
ghost use Rattle.sf_algebra.specs.Bounds.{GREATEST_SIZE};
ghost use Rattle.sf_groebner.specs.GraphRows.{graph_matrix};
ghost use Rattle.sf_buchberger.specs.CountedRows.{IsCounting};

use crate::growth::start::waiting_inputs;
use sf_field::{Copied, OutOfMemory};
use sf_matrix::{List, Matrix};
use sf_pairs::PairQueue;
use sf_reduce::Leads;
use std::alloc::Global;

/// What is kept from degree to degree: the number of variables, the elements found so far with their leads, the pairs of
/// elements and the generators that wait, and the degrees in which all leads are found.
#[derive(Drop)]
pub(crate) struct Counting {
    pub(crate) variables: usize,
    pub(crate) rows: Matrix,
    pub(crate) leads: Leads,
    pub(crate) pairs: PairQueue,
    pub(crate) waiting: PairQueue,
    pub(crate) full: List<i32>,
}

impl Counting {
    /// No elements, and all generators wait.
    pub(crate) fn start(
        alloc: Global,
        m: &Matrix,
        variables: usize,
        generators: &Matrix,
    ) -> Result<Counting, OutOfMemory>
        requires generators { generators.now ≡ graph_matrix m.now }
        requires few { length generators.now.rows ≤ GREATEST_SIZE }
        ensures variables { IfOk result (λ c. c.variables ≡ variables) }
        ensures counting { IfOk result (λ c. (limit : ℕ) → IsCounting limit m.now c) }
    {
        m.modulus().facts();
        let target = generators.target().copy(alloc)?;
        Ok(Counting {
            variables,
            rows: Matrix::new(alloc, generators.modulus(), target),
            leads: Leads::new(alloc),
            pairs: PairQueue::new(alloc),
            waiting: waiting_inputs(alloc, generators)?,
            full: List::new(alloc),
        })
    }

    /// The least degree of what waits.
    pub(crate) fn least(&self) -> Option<i64> {
        match (self.waiting.least(), self.pairs.least()) {
            (Some(generator), Some(pair)) => Some(generator.min(pair)),
            (Some(generator), None) => Some(generator),
            (None, pair) => pair,
        }
    }
}
