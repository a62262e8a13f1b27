//! What is read and printed: words, names, numbers and matrices as texts, and what a written matrix means in a ring.
#![tactic(auto)]

mod laws;
mod machines;
mod matrix_reaches;
mod matrix_text;
mod placing;
mod printing;
mod raw;
mod reaches;
mod ring;
mod tokens;
mod words;

pub use laws::{printed_degrees_read_back, printed_matrices_read_back};
pub use matrix_reaches::{is_matrix, matrices_reach, matrix_reach};
pub use matrix_text::{ReadText, read_matrix, written_matrix};
pub use placing::{
    first_row, first_unknown, has_shape, has_size, is_single_row, place_matrix, place_row,
    place_rows,
};
pub use printing::{print_degrees, print_matrix};
pub use raw::{RawMatrix, RawTerm};
pub use reaches::{digits_reach, integer_reach, name_reach, number_reach, word_reach};
pub use ring::Ring;
pub use tokens::{is_name, make_name, read_integer, read_number};
pub use words::{begins_with, next_line, next_part, next_word};
