//! Ext and Tor of presented modules, over a shelf of resolutions and any table of bases.
//!
//! What a call looks at, and what it answers, is a plan; what a plan answers is a law.
#![tactic(auto)]

mod derived;
mod laws;
mod places;
mod shelved;
mod sizes;

pub use derived::{ext, tor};
pub use laws::{answers_are_sound, exts_are_answered, tors_are_answered};
pub use places::homology_beside;
