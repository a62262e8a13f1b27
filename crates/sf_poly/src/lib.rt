//! Polynomials over the residues modulo a prime: canonical lists of terms, with sums and products.
//!
//! Contracts see one as the ring and the list of its terms, in the words of `sf_algebra`.
#![tactic(auto)]

mod laws;
mod poly;
mod products;
mod sums;
mod term;

pub use laws::equal_polynomials;
pub use poly::Poly;

#[cfg(test)]
mod tests;
