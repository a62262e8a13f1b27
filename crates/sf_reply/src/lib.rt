//! The texts of replies.
#![tactic(auto)]

mod reply;
#[cfg(test)]
mod tests;
mod texts;

pub use reply::Reply;
pub use texts::{fault_text, reply_text};
