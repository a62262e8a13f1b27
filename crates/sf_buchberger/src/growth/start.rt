ghost use Rattle.std.specs.Prelude.{◌≡◌, ◌≤◌, ◌<◌, length, IfOk};
ghost use Rattle.sf_algebra.specs.Bounds.{GREATEST_SIZE};
ghost use Rattle.sf_algebra.specs.Rings.{plain};
ghost use Rattle.sf_groebner.proofs.Spanning.CombinationSums.{row_vector};
ghost use Rattle.sf_reduce.specs.TermSums.{sum_vector};
ghost use Rattle.sf_buchberger.specs.Loops.{started};
ghost use Rattle.sf_buchberger.specs.QueuedPairs.{queued_inputs};

use crate::growth::done::Done;
use crate::growth::state::Growth;
use sf_field::{Copied, OutOfMemory};
use sf_matrix::Matrix;
use sf_pairs::PairQueue;
use sf_reduce::{Leads, Sum};
use std::alloc::Global;

/// What is kept at first: no rows, and all generators wait.
pub(crate) fn start(alloc: Global, generators: &Matrix) -> Result<Growth, OutOfMemory>
    requires few { length generators.now.rows ≤ GREATEST_SIZE }
    ensures start { IfOk result (λ g. g ≡ started generators.now) }
{
    let waiting = waiting_inputs(alloc, generators)?;
    let target = generators.target().copy(alloc)?;
    Ok(Growth {
        rows: Matrix::new(alloc, generators.modulus(), target),
        leads: Leads::new(alloc),
        pairs: PairQueue::new(alloc),
        waiting,
        done: Done::new(alloc),
    })
}

/// The queue of all generators.
pub(crate) fn waiting_inputs(alloc: Global, generators: &Matrix) -> Result<PairQueue, OutOfMemory>
    requires few { length generators.now.rows ≤ GREATEST_SIZE }
    ensures waiting { IfOk result (λ queue. queue ≡ queued_inputs 0 generators.now.rows) }
{
    let mut waiting = PairQueue::new(alloc);
    for k in 0..generators.rows() {
        let degree = i64::from(generators.row(k).degree());
        waiting.push(degree, (k as u32, k as u32))?;
    }
    Ok(waiting)
}

/// A row of a matrix as a sum.
pub(crate) fn row_sum(alloc: Global, rows: &Matrix, k: usize) -> Result<Sum, OutOfMemory>
    requires within { k < length rows.now.rows }
    ensures modulus { IfOk result (λ s. rows.now.ring ≡ plain s.modulus) }
    ensures sum { IfOk result (λ s. sum_vector s ≡ row_vector rows.now.rows k) }
{
    let row = rows.row(k);
    let modulus = rows.modulus();
    modulus.facts();
    let mut sum = Sum::new(alloc, modulus, row.degree());
    sum.push_all(alloc, row.terms())?;
    Ok(sum)
}
