//! Minimal generators of a span modulo another one, as the numbers of rows of its reduced basis.
#![tactic(auto)]

mod constants;
mod degrees;
mod facts;
mod minimal;
mod pivots;
mod quotients;
mod sizes;
mod spaces;
mod steps;

pub use minimal::minimal_of;
