ghost use Rattle.std.specs.Prelude.{◌++◌};
ghost use Rattle.std.specs.Hash as fed;
ghost use Rattle.std.proofs.Common.{ap};
ghost use Rattle.sf_algebra.proofs.GradedMatrices.Equality.{same_vector, Decides-same_vector, same_vector_per, same_vector_equiv};

use crate::vector::{Term, Vector};
use std::hash::{Hash, Hasher};

impl PartialEq for Vector {
    ghost eq = { same_vector };

    ghost laws = { same_vector_per };

    fn eq(&self, other: &Vector) -> bool {
        self.degree == other.degree && self.terms == other.terms
    }
}

impl Eq for Vector {
    ghost laws = { same_vector_equiv };
}

impl Hash for Vector {
    ghost hash_input = { λ v. ⟦<i32 as Hash>⟧.hash_input v.degree ++ fed.slice ⟦<Term as Hash>⟧.hash_input v.terms };

    ghost respects_eq = { λ v w h. ap (λ u. ⟦<i32 as Hash>⟧.hash_input u.degree ++ fed.slice ⟦<Term as Hash>⟧.hash_input u.terms) ((Decides-same_vector v w).0 h) };

    fn hash<H: Hasher>(&self, state: &mut H) {
        self.degree.hash(state);
        self.terms.hash(state);
    }
}
