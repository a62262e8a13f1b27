//! A session answers the lines of a script one by one, and `run` answers a whole script.
#![tactic(auto)]

mod execution;
mod laws;
mod looks;
mod outcome;
mod outcomes;
mod session;
#[cfg(test)]
mod tests;

pub use execution::{Status, run};
pub use laws::{front_of_output, one_output, one_reply, replies_are_independent};
pub use session::Session;
