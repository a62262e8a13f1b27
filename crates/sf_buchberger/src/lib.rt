//! Buchberger's algorithm: the reduced basis of a matrix's graph.
#![tactic(auto)]

mod basis;
mod counted;
mod graph_rows;
mod growth;
mod parts;
mod sorting;
mod tails;
mod whole;

pub use basis::{graph_basis, graph_plain, whole_basis};
pub use whole::GraphBasis;

#[cfg(test)]
mod tests;
