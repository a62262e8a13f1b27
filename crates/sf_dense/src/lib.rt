//! Vectors of one degree as sums over the places of this degree.
#![tactic(auto)]

mod cells;
mod columns;
mod entries;
mod place;

pub use cells::Cells;
pub use columns::columns_of;
pub use entries::{Entry, multiple_entries, terms_of};
pub use place::Place;

#[cfg(test)]
mod tests;
