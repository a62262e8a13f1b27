//! Monomials as the program keeps them. Contracts see one as the monomial of `sf_algebra`.
#![tactic(auto)]

mod monomial;

pub use monomial::Mono;

#[cfg(test)]
mod tests;
