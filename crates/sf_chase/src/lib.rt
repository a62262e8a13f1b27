//! Chases through groups in columns: the pages of a filtration, their differentials, and the filtration of homology.
//!
//! The definitions are in `specs/`, the lemmas in `proofs/`.
#![tactic(auto)]
