//! What holds of `==` at vectors and matrices, and of plans, each as the contract of a function that does nothing.

ghost use Rattle.sf_algebra.specs.Equality.{DecidesEquality};
ghost use Rattle.sf_matrix.specs.PlanLaws.{HaveOneRun};

use crate::matrix::Matrix;
use crate::vector::Vector;

/// `==` of vectors is true exactly where their degrees and their terms are equal.
pub fn equal_vectors()
    ensures { DecidesEquality ⟦<Vector as PartialEq>⟧.eq }
{}

/// `==` of matrices is true exactly where their rings, their targets and their rows with degrees are equal.
pub fn equal_matrices()
    ensures { DecidesEquality ⟦<Matrix as PartialEq>⟧.eq }
{}

/// For each limit a plan has a run to its end, and any other run agrees with it or is its beginning, cut for want of memory.
pub fn plans_have_one_run()
    ensures { HaveOneRun }
{}
