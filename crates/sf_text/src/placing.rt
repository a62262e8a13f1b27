//! What a matrix means that a script writes, in a ring and over a free module.

mod row;
mod rows;
mod shape;
mod term;

pub use row::place_row;
pub use rows::{place_matrix, place_rows};
pub use shape::{first_row, first_unknown, has_shape, has_size, is_single_row};

#[cfg(test)]
mod tests;
