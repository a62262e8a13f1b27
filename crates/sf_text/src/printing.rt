//! Degrees and matrices as text. Where memory runs out, what the text holds then is left open.

mod degrees;
mod joins;
mod matrix;
mod row;
mod term;

pub use degrees::print_degrees;
pub use matrix::print_matrix;

#[cfg(test)]
mod tests;
