//! Resolutions of modules, made step by step over a table of bases, and the shelf that keeps them.
//!
//! At what a call looks, and what it answers, is a plan; what a plan answers is a law.
#![tactic(auto)]

mod laws;
mod making;
mod resolution;
mod shelf;

pub use laws::{resolutions_are_answered, resolutions_end_after_variables, steps_are_sound};
pub use making::{first_step, next_step};
pub use resolution::Resolution;
pub use shelf::Shelf;
