//! Division of vectors by monic rows, and S-vectors.
#![tactic(auto)]

mod bucket;
mod division;
mod leads;
mod pairs;
mod sum;

pub use division::{normal_form, rest_of, sum_of};
pub use leads::Leads;
pub use pairs::{s_sum, s_vector};
pub use sum::Sum;

#[cfg(test)]
mod tests;
