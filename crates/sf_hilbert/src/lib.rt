//! Hilbert's bound on the length of resolutions.
//!
//! The definitions are in `specs/`, the lemmas in `proofs/`. The functions here do nothing: the
//! contract of each is a law of the definitions.
#![tactic(auto)]

mod bound;

pub use bound::{resolution_of_residue_field, resolutions_end_after_the_variables};
