//! Presentations of a module modulo another one, of a free module modulo a span, and coordinates in generators, through any table
//! of bases.
//!
//! What a call looks at, and what it answers, is a plan; what a plan answers is a law.
#![tactic(auto)]

mod blocks;
mod coordinate;
mod generators;
mod laws;
mod looks;
mod presentation;
mod quotient;
mod units;

pub use blocks::{first_blocks, first_blocks_of};
pub use coordinate::coordinates;
pub use generators::minimal_generators;
pub use laws::{
    coordinates_are_answered, looks_answer_bases, presentations_are_answered,
    presentations_have_small_degrees, quotients_are_answered,
};
pub use looks::{basis_of, syzygies_of};
pub use presentation::{Presentation, present};
pub use quotient::{present_quotient, size_fault};
pub use units::unit_basis;
