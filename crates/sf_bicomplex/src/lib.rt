//! Bicomplexes of presented modules, their total complexes and spectral sequences.
//!
//! The definitions are in `specs/`, the lemmas in `proofs/`. The functions here do nothing: the
//! contract of each is a law of the definitions.
#![tactic(auto)]

mod example;
mod existence;
mod filtration;
mod given;
mod lowest;
mod next;
mod page;
mod refused;
mod resolved;
mod tensor;
mod tor;
mod total;

pub use example::{residue_field, row_resolution, tail};
pub use existence::pages_have_matrices;
pub use filtration::filtrations_have_last_pages;
pub use given::modules_have_filtrations;
pub use lowest::lowest_rows_have_second_pages;
pub use next::next_pages_have_inverse_matrices;
pub use page::pages_are_homology;
pub use refused::wrong_examples_are_refused;
pub use resolved::resolved_rows_give_homology;
pub use tensor::tensors_are_bicomplexes;
pub use tor::tensor_pages_are_tor;
pub use total::total_complexes;
