//! Contracting homotopies of exact complexes of free modules, and exact block triangular matrices.
//!
//! The definitions are in `specs/`, the lemmas in `proofs/`. The functions here do nothing: the
//! contract of each is a law of the definitions.
#![tactic(auto)]

mod homotopy;
mod triangle;

pub use homotopy::exact_complexes_contract;
pub use triangle::block_triangles_are_exact;
