//! Definitions and laws of what presentations, coordinates and resolutions are for.
//!
//! The definitions are in `specs/`, the lemmas in `proofs/`. The functions here do nothing: the
//! contract of each is a law of the definitions.
#![tactic(auto)]

mod basis;
mod coordinate;
mod example;
mod inverse;
mod kept;
mod map;
mod presented;

pub use basis::unit_vectors_are_a_basis;
pub use coordinate::{
    presentations_have_coordinates, vectors_have_coordinates, vectors_have_descriptions,
};
pub use example::residue_field;
pub use inverse::{descriptions_are_inverse, identities_are_seen_at_units, inverses_are_unique};
pub use kept::{lifts_have_one_proof, mere_facts_are_unique, mere_facts_hold};
pub use map::{maps_are_decided_by_rows, maps_compose};
pub use presented::{
    kernels_and_images_are_matrices, presentations_present, resolutions_are_exact,
};
