ghost use Rattle.std.specs.Prelude.{◌≡◌, ◌↔◌, [], ◌++◌, IfOk, OnOk, OnErr, IsTrue};
ghost use Rattle.sf_algebra.specs.Rings.{ones};
ghost use Rattle.sf_algebra.specs.Sums.{put, normal, add};
ghost use Rattle.sf_algebra.specs.Terms.{IsCanonical, IsNonzeroResidue, IsAboveFirst};
ghost use Rattle.sf_algebra.specs.Vectors.{place_cmp};

use crate::vector::{Term, Vector};
use sf_field::{Modulus, OutOfMemory};
use std::alloc::Global;
use std::cmp::Ordering;

impl Term {
    /// Compares where two terms stand: an earlier generator is greater, and at one generator the monomials decide.
    #[inline]
    pub fn cmp_place(&self, other: &Term) -> Ordering
        ensures { result ≡ place_cmp ones self.now.at other.now.at }
    {
        match other.position.cmp(&self.position) {
            Ordering::Equal => self.monomial.cmp(&other.monomial),
            unequal => unequal,
        }
    }
}

/// Adds a term at the end, unless its coefficient is 0.
fn push_nonzero(terms: &mut Vec<Term>, term: Term) -> Result<(), OutOfMemory>
    ensures ok { OnOk result (terms.new.items ≡ terms.old.items ++ put term.at term.coefficient []) }
    ensures err { OnErr result (terms.new.items ≡ terms.old.items) }
{
    if term.coefficient != 0 {
        terms.push(term)?;
    }
    Ok(())
}

/// The sum of two canonical lists of terms, by a merge.
pub fn add_terms(
    alloc: Global,
    modulus: Modulus,
    mut left: &[Term],
    mut right: &[Term],
) -> Result<Vec<Term>, OutOfMemory>
    requires left { IsCanonical (place_cmp ones) modulus left.now }
    requires right { IsCanonical (place_cmp ones) modulus right.now }
    ensures sum { IfOk result (λ v. v.items ≡ add (place_cmp ones) modulus left.now right.now) }
    ensures canonical { IfOk result (λ v. IsCanonical (place_cmp ones) modulus v.items) }
{
    let mut sum = Vec::with_capacity(alloc, left.len().saturating_add(right.len()))?;
    while let ([t, ts @ ..], [u, us @ ..]) = (left, right) {
        match t.cmp_place(u) {
            Ordering::Greater => {
                sum.push(*t)?;
                left = ts;
            }
            Ordering::Less => {
                sum.push(*u)?;
                right = us;
            }
            Ordering::Equal => {
                let coefficient = modulus.add(t.coefficient, u.coefficient);
                push_nonzero(&mut sum, Term { coefficient, ..*t })?;
                left = ts;
                right = us;
            }
        }
    }
    sum.extend_from_slice(left)?;
    sum.extend_from_slice(right)?;
    Ok(sum)
}

/// Whether a list of terms is the canonical list of what it means.
fn are_canonical(modulus: Modulus, terms: &[Term]) -> bool
    ensures { IsTrue result ↔ IsCanonical (place_cmp ones) modulus terms.now }
{
    let mut rest = terms;
    while let [t, others @ ..] = rest {
        if !is_nonzero_residue(modulus, t) || !is_above(t, others) {
            return false;
        }
        rest = others;
    }
    true
}

/// Whether the coefficient is a residue other than 0.
fn is_nonzero_residue(modulus: Modulus, term: &Term) -> bool
    ensures { IsTrue result ↔ IsNonzeroResidue modulus term.now }
{
    term.coefficient != 0 && term.coefficient < modulus.value()
}

/// Whether a term is greater than the first of the others, where there is one.
fn is_above(term: &Term, others: &[Term]) -> bool
    ensures { IsTrue result ↔ IsAboveFirst (place_cmp ones) term.now.at others.now }
{
    match others.first() {
        None => true,
        Some(other) => other.cmp_place(term) == Ordering::Less,
    }
}

/// The canonical list that a list of terms means, in any order and with coefficients of any size.
///
/// The halves are summed and merged; a part that is canonical as it stands is taken over.
pub fn sum_of_terms(
    alloc: Global,
    modulus: Modulus,
    terms: &[Term],
) -> Result<Vec<Term>, OutOfMemory>
    ensures sum { IfOk result (λ v. v.items ≡ normal (place_cmp ones) modulus terms.now) }
    ensures canonical { IfOk result (λ v. IsCanonical (place_cmp ones) modulus v.items) }
{
    let p = modulus.value();
    if are_canonical(modulus, terms) {
        let mut sum = Vec::with_capacity(alloc, terms.len())?;
        sum.extend_from_slice(terms)?;
        return Ok(sum);
    }
    match terms {
        [] => Ok(Vec::new(alloc)),
        [t] => {
            let mut sum = Vec::with_capacity(alloc, 1)?;
            let coefficient = t.coefficient % p;
            push_nonzero(&mut sum, Term { coefficient, ..*t })?;
            Ok(sum)
        }
        _ => {
            let (front, back) = terms.split_at(terms.len() / 2);
            let front = sum_of_terms(alloc, modulus, front)?;
            let back = sum_of_terms(alloc, modulus, back)?;
            add_terms(alloc, modulus, &front, &back)
        }
    }
}

/// The same, of terms that were gathered for it: these are given back where they are canonical as they stand.
pub(crate) fn sum_of_gathered(
    alloc: Global,
    modulus: Modulus,
    terms: Vec<Term>,
) -> Result<Vec<Term>, OutOfMemory>
    ensures sum { IfOk result (λ v. v.items ≡ normal (place_cmp ones) modulus terms.items) }
    ensures canonical { IfOk result (λ v. IsCanonical (place_cmp ones) modulus v.items) }
{
    modulus.facts();
    if are_canonical(modulus, &terms) {
        Ok(terms)
    } else {
        sum_of_terms(alloc, modulus, &terms)
    }
}

impl Vector {
    /// The vector of this degree that a list of terms means, in any order and with coefficients of any size.
    pub fn from_terms(
        alloc: Global,
        modulus: Modulus,
        degree: i32,
        terms: &[Term],
    ) -> Result<Vector, OutOfMemory>
        ensures ok { IfOk result (λ v. v ≡ record { degree = degree; terms = normal (place_cmp ones) modulus terms.now }) }
        ensures canonical { IfOk result (λ v. IsCanonical (place_cmp ones) modulus v.terms) }
    {
        let terms = sum_of_terms(alloc, modulus, terms)?;
        Ok(Vector { degree, terms })
    }
}

#[cfg(test)]
mod tests {
    use super::*;
    use sf_mono::Mono;
    use std::test::Fail;

    /// A term: its position, the exponents of the first two variables, and its coefficient.
    type Row = (u64, u16, u16, u32);

    fn terms_of(alloc: Global, rows: &[Row]) -> Result<Vec<Term>, Fail> {
        let mut terms = Vec::new(alloc);
        for (position, first, second, coefficient) in rows {
            let monomial = Mono::from_exponents([*first, *second, 0, 0, 0, 0]).ok_or("too great")?;
            terms.push(Term {
                position: *position,
                monomial,
                coefficient: *coefficient,
            })?;
        }
        Ok(terms)
    }

    #[test]
    fn sums_terms_in_any_order(rt: HostRuntime) -> Result<(), Fail> {
        // modulus, terms, what they mean
        let table: [(u64, &[Row], &[Row]); 5] = [
            (
                7,
                &[(0, 1, 0, 1), (0, 0, 1, 1), (0, 1, 0, 6), (0, 0, 2, 3)],
                &[(0, 0, 2, 3), (0, 0, 1, 1)],
            ),
            (
                32003,
                &[(1, 0, 2, 4), (1, 2, 0, 64007), (0, 0, 0, 1), (1, 2, 0, 1)],
                &[(0, 0, 0, 1), (1, 2, 0, 2), (1, 0, 2, 4)],
            ),
            (
                2,
                &[(3, 1, 1, 1), (3, 1, 1, 1), (3, 1, 1, 1)],
                &[(3, 1, 1, 1)],
            ),
            (5, &[(0, 0, 0, 5)], &[]),
            (3, &[], &[]),
        ];
        for (modulus, rows, meaning) in table {
            let modulus = Modulus::from_number(modulus).ok_or("not a modulus")?;
            let terms = terms_of(rt.alloc(), rows)?;
            let vector = Vector::from_terms(rt.alloc(), modulus, 4, &terms)?;
            let meaning = terms_of(rt.alloc(), meaning)?;
            assert_eq!(rt; vector.terms.as_slice(), meaning.as_slice());
        }
        Ok(())
    }
}
