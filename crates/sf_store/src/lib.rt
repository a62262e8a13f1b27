//! The matrices that were looked at, each with the reduced basis of its graph: the tables of the program and of its tests.
#![tactic(auto)]

mod looked;
mod looks;
mod plain;
mod reduction;
mod store;

pub use plain::PlainBases;
pub use store::Store;

#[cfg(test)]
mod tests;
