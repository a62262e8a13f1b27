//! What keeps to the variables of a ring.
//!
//! The definitions are in `specs/`, the lemmas in `proofs/`. The functions here do nothing: the
//! contract of each is a law of the definitions.
#![tactic(auto)]

mod bases;
mod lift;
mod matrices;
mod monomial;
mod presentation;
mod row;

pub use bases::bases_keep_to_variables;
pub use lift::lifts_keep_to_variables;
pub use matrices::matrices_keep_to_variables;
pub use monomial::monomials_keep_to_variables;
pub use presentation::presentations_keep_to_variables;
pub use row::rows_keep_to_variables;
