use sf_mono::Mono;
use std::marker::Model;

/// Where a term of a vector stands: at a generator, counted from 0, and a monomial.
#[derive(Clone, Copy, Debug, PartialEq, Eq)]
pub struct Place {
    pub monomial: Mono,
    pub position: u64,
}

impl Model for Place {
    ghost use Rattle.sf_algebra.specs.Vectors.{Place};

    ghost Value = { Place };

    ghost view = { λ k. record { position = k.position; monomial = k.monomial } };

    ghost inverse = { λ k. record { position = k.position; monomial = k.monomial } };
}
