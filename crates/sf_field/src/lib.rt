//! Residues modulo the ten primes of the program, the error of every call that runs out of memory, and the
//! trait of values that can be copied where memory suffices.
#![tactic(auto)]

mod copied;
mod laws;
mod memory;
mod modulus;

pub use copied::Copied;
pub use laws::{
    inverses_are_unique, moduli_are_primes, residues_are_a_field, residues_have_no_zero_divisors,
};
pub use memory::OutOfMemory;
pub use modulus::Modulus;
