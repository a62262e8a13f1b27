//! What a Buchberger loop keeps beside its polynomials: the count of its ticks, the queue of its pairs, and the choice among those of
//! least degree.
#![tactic(auto)]

mod laws;
mod queue;
mod strategy;
mod ticks;

pub use laws::{least_degrees, taken_pairs};
pub use queue::PairQueue;
pub use strategy::{FirstStrategy, LastStrategy, SpreadStrategy, Strategy};
pub use ticks::Ticks;

#[cfg(test)]
mod tests;
