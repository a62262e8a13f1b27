use crate::growth::done::Done;
use sf_matrix::Matrix;
use sf_pairs::PairQueue;
use sf_reduce::Leads;

/// What Buchberger's algorithm keeps: the rows with their leads, the pairs of rows and the generators that wait, and
/// the pairs that are done.
#[derive(Drop)]
pub(crate) struct Growth {
    pub(crate) rows: Matrix,
    pub(crate) leads: Leads,
    pub(crate) pairs: PairQueue,
    pub(crate) waiting: PairQueue,
    pub(crate) done: Done,
}

/// What becomes of what was taken from a queue.
#[derive(Clone, Copy, Debug, PartialEq, Eq)]
pub(crate) enum Outcome {
    /// A pair needs no division.
    Dropped,
    /// There is no rest.
    Zero,
    /// The rest is a new row.
    Grown,
}
