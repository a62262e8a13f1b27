ghost use Rattle.std.specs.List.{AllByRecursion};
ghost use Rattle.sf_algebra.specs.Monomials.{one};
ghost use Rattle.sf_matrix.specs.Bounds.{HasRoom};

use sf_matrix::{Matrix, Term};

/// Changes nothing: its contract says that the product of 1 and each monomial of a matrix has room, since the monomial has.
pub fn monomials_have_room(m: &Matrix)
    ensures room { AllByRecursion (λ v. HasRoom one v.terms) m.now.rows }
{
    for i in 0..m.rows() {
        terms_have_room(m.row(i).terms());
    }
}

/// The same for the monomials of some terms.
fn terms_have_room(terms: &[Term])
    ensures room { HasRoom one terms.now }
{
    for term in terms {
        let _sum = term.monomial.sum();
    }
}
