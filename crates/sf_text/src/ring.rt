use sf_field::Modulus;
use sf_matrix::{List, Name};

/// The ring of a script: its modulus and the names of its variables, in order.
#[derive(Debug, Drop)]
pub struct Ring {
    pub modulus: Modulus,
    pub names: List<Name>,
}
