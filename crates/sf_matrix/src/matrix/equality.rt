ghost use Rattle.std.specs.Prelude.{◌++◌};
ghost use Rattle.std.specs.Hash as fed;
ghost use Rattle.std.proofs.Common.{ap};
ghost use Rattle.sf_algebra.proofs.GradedMatrices.Equality.{same_matrix, Decides-same_matrix, same_matrix_per, same_matrix_equiv};

use crate::matrix::Matrix;
use crate::vector::Vector;
use sf_field::Modulus;
use std::hash::{Hash, Hasher};

impl PartialEq for Matrix {
    ghost eq = { same_matrix };

    ghost laws = { same_matrix_per };

    fn eq(&self, other: &Matrix) -> bool {
        self.modulus == other.modulus && self.target == other.target && self.rows == other.rows
    }
}

impl Eq for Matrix {
    ghost laws = { same_matrix_equiv };
}

impl Hash for Matrix {
    ghost hash_input = { λ m. ⟦<Modulus as Hash>⟧.hash_input m.ring.modulus ++ (fed.slice ⟦<i32 as Hash>⟧.hash_input m.target ++ fed.slice ⟦<Vector as Hash>⟧.hash_input m.rows) };

    ghost respects_eq = { λ m n h. ap (λ k. ⟦<Modulus as Hash>⟧.hash_input k.ring.modulus ++ (fed.slice ⟦<i32 as Hash>⟧.hash_input k.target ++ fed.slice ⟦<Vector as Hash>⟧.hash_input k.rows)) ((Decides-same_matrix m n).0 h) };

    fn hash<H: Hasher>(&self, state: &mut H) {
        self.modulus.hash(state);
        self.target.hash(state);
        self.rows.hash(state);
    }
}
