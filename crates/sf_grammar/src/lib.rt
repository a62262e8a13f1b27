//! Words, names and numbers of a line, and how far a text is a beginning of some text of a language.
//!
//! The definitions are in `specs/`, the lemmas in `proofs/`. The functions here do nothing: the contract of each is a law
//! of the definitions.
#![tactic(auto)]

mod reaches;

pub use reaches::{columns_are_unique, forms_reach, parts_reach, words_reach};
