//! Definitions and lemmas of the algebra, on which every other crate stands.
//!
//! The definitions are in `specs/`, the lemmas in `proofs/`. The functions here do nothing: the
//! contract of each is a law of the definitions.
#![tactic(auto)]

mod combination;
mod degree;
mod divisibility;
mod matrices;
mod multiple;
mod number;
mod order;
mod place;
mod polynomial;
mod product;
mod size;
mod sum;
mod vector;

pub use combination::matrices_act;
pub use degree::monomial_degrees;
pub use divisibility::{monomial_divisors, monomial_multiples, monomial_quotients};
pub use matrices::{
    kronecker_products, matrix_negatives, matrix_parts, matrix_products, matrix_stacks,
    matrix_transposes,
};
pub use multiple::{multiples_act, multiples_of_polynomials_act};
pub use number::{monomial_numbers, place_numbers};
pub use order::{monomial_order, monomial_order_in_words, place_order};
pub use place::place_products;
pub use polynomial::polynomials_are_a_ring;
pub use product::monomial_products;
pub use size::sizes_are_decided;
pub use sum::{polynomial_sums, vector_sums};
pub use vector::{vectors_are_a_group, vectors_are_graded};
