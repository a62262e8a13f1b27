//! Reduced bases of graphs, certified by counting.
//!
//! The definitions are in `specs/`, the lemmas in `proofs/`. The functions here do nothing: the
//! contract of each is a law of the definitions.
#![tactic(auto)]

mod count;

pub use count::counts_decide_bases;
