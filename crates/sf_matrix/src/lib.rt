//! The values of the algebra as the program keeps them: lists, names, free modules, vectors and matrices. Plans of the matrices at
//! which a query looks, and how a query looks through a table.
//!
//! Contracts see each of them as the plain data of `sf_algebra`.
#![tactic(auto)]

mod bases;
mod basis;
mod bounds;
mod combinations;
mod free;
mod laws;
mod list;
mod looks;
mod matrix;
mod name;
mod sizes;
mod sums;
mod vector;

pub use bases::Bases;
pub use basis::{BaseFault, Graph};
pub use bounds::fits;
pub use combinations::push_multiple;
pub use free::Free;
pub use laws::{equal_matrices, equal_vectors, plans_have_one_run};
pub use list::List;
pub use looks::{look, reduced};
pub use matrix::Matrix;
pub use name::Name;
pub use sf_field::Copied;
pub use sizes::has_small_size;
pub use sums::{add_terms, sum_of_terms};
pub use vector::{Term, Vector};

#[cfg(test)]
mod tests;
