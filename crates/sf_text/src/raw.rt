use sf_matrix::{List, Name};
use std::marker::Model;

/// A term as a script writes it: at most six factors, with exponents of at most three digits. A
/// coefficient or an exponent that isn't written is 1.
#[derive(Debug, Drop)]
pub struct RawTerm {
    pub minus: bool,
    pub coefficient: u64,
    /// The variables with their exponents, in the order of the text.
    pub factors: List<(Name, u16)>,
}

impl Model for RawTerm {
    ghost use Rattle.sf_text.specs.Raw.{RawTerm, IsSmallTerm};

    ghost Value = { RawTerm };

    ghost view = { λ t. record { minus = t.minus; coefficient = t.coefficient; factors = t.factors } };

    ghost invariant = { λ t. IsSmallTerm (record { minus = t.minus; coefficient = t.coefficient; factors = t.factors }) };
}

/// A matrix as a script writes it: rows of entries, which are sums of terms.
#[derive(Debug, Drop)]
pub struct RawMatrix {
    pub rows: List<List<List<RawTerm>>>,
}
