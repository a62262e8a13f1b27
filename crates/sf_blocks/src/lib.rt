//! Definitions and laws of matrices side by side, sums of matrices, and total complexes.
//!
//! The definitions are in `specs/`, the lemmas in `proofs/`. The functions here do nothing: the
//! contract of each is a law of the definitions.
#![tactic(auto)]

mod beside;
mod block;
mod direct_sum;
mod factors;
mod list;
mod sums;
mod total;

pub use beside::matrices_side_by_side;
pub use block::two_by_two_blocks;
pub use direct_sum::direct_sums;
pub use factors::sums_of_kronecker_products;
pub use list::lists_of_blocks;
pub use sums::{matrix_sums, zero_matrices};
pub use total::total_differentials;
