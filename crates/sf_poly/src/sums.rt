ghost use Rattle.std.specs.Prelude.{◌≡◌, [], ◌++◌, IfOk, OnOk, OnErr};
ghost use Rattle.sf_algebra.specs.Monomials.{monomial_cmp};
ghost use Rattle.sf_algebra.specs.Multiples.{negative};
ghost use Rattle.sf_algebra.specs.Rings.{ones};
ghost use Rattle.sf_algebra.specs.Sums.{put, add};
ghost use Rattle.sf_algebra.specs.Terms.{IsCanonical};

use crate::term::Term;
use sf_field::{Modulus, OutOfMemory};
use std::alloc::Global;
use std::cmp::Ordering;

/// Adds a term at the end, unless its coefficient is 0.
pub fn push_nonzero(terms: &mut Vec<Term>, term: Term) -> Result<(), OutOfMemory>
    ensures ok { OnOk result (terms.new.items ≡ terms.old.items ++ put term.at term.coefficient []) }
    ensures err { OnErr result (terms.new.items ≡ terms.old.items) }
{
    if term.coefficient != 0 {
        terms.push(term)?;
    }
    Ok(())
}

/// The sum of two canonical lists of terms, by a merge.
pub fn add_terms(
    alloc: Global,
    modulus: Modulus,
    mut left: &[Term],
    mut right: &[Term],
) -> Result<Vec<Term>, OutOfMemory>
    requires left { IsCanonical (monomial_cmp ones) modulus left.now }
    requires right { IsCanonical (monomial_cmp ones) modulus right.now }
    ensures sum { IfOk result (λ v. v.items ≡ add (monomial_cmp ones) modulus left.now right.now) }
    ensures canonical { IfOk result (λ v. IsCanonical (monomial_cmp ones) modulus v.items) }
{
    let mut sum = Vec::with_capacity(alloc, left.len().saturating_add(right.len()))?;
    while let ([t, ts @ ..], [u, us @ ..]) = (left, right) {
        match t.monomial.cmp(&u.monomial) {
            Ordering::Greater => {
                sum.push(*t)?;
                left = ts;
            }
            Ordering::Less => {
                sum.push(*u)?;
                right = us;
            }
            Ordering::Equal => {
                let coefficient = modulus.add(t.coefficient, u.coefficient);
                push_nonzero(&mut sum, Term { coefficient, ..*t })?;
                left = ts;
                right = us;
            }
        }
    }
    sum.extend_from_slice(left)?;
    sum.extend_from_slice(right)?;
    Ok(sum)
}

/// The terms with the negatives of their coefficients.
pub fn negative(alloc: Global, modulus: Modulus, terms: &[Term]) -> Result<Vec<Term>, OutOfMemory>
    requires { IsCanonical (monomial_cmp ones) modulus terms.now }
    ensures negative { IfOk result (λ v. v.items ≡ negative modulus terms.now) }
    ensures canonical { IfOk result (λ v. IsCanonical (monomial_cmp ones) modulus v.items) }
{
    let mut negative = Vec::with_capacity(alloc, terms.len())?;
    for term in terms {
        let coefficient = modulus.neg(term.coefficient);
        negative.push(Term {
            coefficient,
            ..*term
        })?;
    }
    Ok(negative)
}
