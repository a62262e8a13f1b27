ghost use Rattle.std.specs.Prelude.{◌≡◌, ◌<◌, [], ◌∷◌, drop, length, IfOk, OnOk, MatchOption};
ghost use Rattle.std.specs.List.{AllByRecursion};
ghost use Rattle.sf_algebra.specs.Rings.{ones, plain};
ghost use Rattle.sf_algebra.specs.Sums.{put};
ghost use Rattle.sf_algebra.specs.Terms.{IsCanonical, IsDescending};
ghost use Rattle.sf_algebra.specs.VectorOperations.{row_sum};
ghost use Rattle.sf_algebra.specs.Vectors.{place_cmp};
ghost use Rattle.sf_groebner.specs.Divisions.{AreBelow};
ghost use Rattle.sf_reduce.specs.Buckets.{AreCanonical, GreatestOf, IsGreatest, IsGreatestWith, IsUpTo, count_of_terms, sum_of_lists};

use sf_field::{Modulus, OutOfMemory};
use sf_matrix::{Term, add_terms};
use std::alloc::Global;
use std::cmp::Ordering;
use std::marker::Model;

/// The room of the first bucket, in terms. Each further one has four times the room of the one before it.
const LEAST_ROOM: usize = 16;

/// A list of terms, the greatest first, of which the first ones may be taken. Contracts see it as the list of the
/// terms that are left.
#[derive(Debug, Drop)]
pub(crate) struct Bucket {
    terms: Vec<Term>,
    taken: usize,
}

impl Model for Bucket {
    ghost use Rattle.std.specs.Prelude.{List, drop, ◌≤◌, length};
    ghost use Rattle.sf_algebra.specs.Terms.{Term};
    ghost use Rattle.sf_algebra.specs.Vectors.{Place};

    ghost Value = { List (Term Place) };

    ghost view = { λ b. drop b.taken b.terms.items };

    ghost invariant = { λ b. b.taken ≤ length b.terms.items };
}

impl Bucket {
    /// The bucket of these terms.
    pub(crate) fn from_terms(terms: Vec<Term>) -> Bucket
        ensures terms { result ≡ terms.items }
    {
        Bucket { terms, taken: 0 }
    }

    /// The terms that are left.
    pub(crate) fn left(&self) -> &[Term]
        ensures left { result.now ≡ self.now }
    {
        &self.terms[self.taken..]
    }

    /// The first of the terms that are left.
    fn first(&self) -> Option<&Term>
        ensures first { MatchOption result (self.now ≡ []) (λ t. self.now ≡ t.now ∷ drop 1 self.now) }
    {
        self.left().first()
    }

    /// Takes the first of the terms that are left away.
    fn drop_first(&mut self)
        requires some { 0 < length self.old }
        ensures rest { self.new ≡ drop 1 self.old }
    {
        self.taken += 1;
    }

    /// The sum of the terms that are left and of other ones.
    fn plus(
        &self,
        alloc: Global,
        modulus: Modulus,
        terms: Vec<Term>,
    ) -> Result<Vec<Term>, OutOfMemory>
        requires left { IsCanonical (place_cmp ones) modulus self.now }
        requires right { IsCanonical (place_cmp ones) modulus terms.items }
        ensures sum { IfOk result (λ v. v.items ≡ row_sum (plain modulus) self.now terms.items) }
        ensures canonical { IfOk result (λ v. IsCanonical (place_cmp ones) modulus v.items) }
    {
        modulus.facts();
        match self.first() {
            None => Ok(terms),
            Some(_) => add_terms(alloc, modulus, self.left(), &terms),
        }
    }

    /// Takes the first term where it stands at the place of `place`, above which none stands, and answers its
    /// coefficient; 0 where no term stands there.
    fn take_at(&mut self, modulus: Modulus, place: &Term) -> u32
        requires canonical { IsCanonical (place_cmp ones) modulus self.old }
        requires above { IsUpTo place.now.at self.old }
        ensures canonical { IsCanonical (place_cmp ones) modulus self.new }
        ensures taken { self.old ≡ put place.now.at result self.new }
        ensures residue { result < modulus }
        ensures below { AreBelow ones place.now.at self.new }
    {
        modulus.facts();
        let Some(first) = self.first() else {
            return 0;
        };
        if first.cmp_place(place) != Ordering::Equal {
            return 0;
        }
        let coefficient = first.coefficient;
        self.drop_first();
        coefficient
    }
}

/// The greater of a term and the first of a bucket.
fn greater_of(greatest: Option<Term>, bucket: &Bucket) -> Option<Term>
    requires descending { IsDescending (place_cmp ones) bucket.now }
    ensures greatest { IsGreatestWith greatest bucket.now result }
{
    let Some(first) = bucket.first() else {
        return greatest;
    };
    let Some(term) = greatest else {
        return Some(*first);
    };
    if first.cmp_place(&term) == Ordering::Greater {
        Some(*first)
    } else {
        Some(term)
    }
}

/// A term at the greatest place at which a term of the buckets stands, or `None` where there are no terms.
pub(crate) fn greatest_of(buckets: &[Bucket]) -> Option<Term>
    requires descending { AllByRecursion (IsDescending (place_cmp ones)) buckets.now }
    ensures greatest { GreatestOf result buckets.now }
{
    let mut greatest = None;
    for bucket in buckets {
        greatest = greater_of(greatest, bucket);
    }
    greatest
}

/// Takes the terms at the greatest place away and answers the sum of their coefficients.
pub(crate) fn take_all_at(modulus: Modulus, buckets: &mut [Bucket], place: &Term) -> u32
    requires canonical { AreCanonical modulus buckets.old }
    requires greatest { IsGreatest place.now.at buckets.old }
    ensures canonical { AreCanonical modulus buckets.new }
    ensures sum { sum_of_lists modulus buckets.old ≡ put place.now.at result (sum_of_lists modulus buckets.new) }
    ensures fewer { count_of_terms buckets.new < count_of_terms buckets.old }
{
    modulus.facts();
    let mut coefficient = 0;
    for level in 0..buckets.len() {
        let part = buckets[level].take_at(modulus, place);
        coefficient = modulus.add(coefficient, part);
    }
    coefficient
}

/// Takes the greatest term of the sum of the buckets away and answers it. There is none exactly where the sum is 0.
pub(crate) fn take_greatest(modulus: Modulus, buckets: &mut [Bucket]) -> Option<Term>
    requires canonical { AreCanonical modulus buckets.old }
    ensures canonical { AreCanonical modulus buckets.new }
    ensures first { MatchOption result ((sum_of_lists modulus buckets.old ≡ []) × (sum_of_lists modulus buckets.new ≡ []))
        (λ t. sum_of_lists modulus buckets.old ≡ t ∷ sum_of_lists modulus buckets.new) }
{
    modulus.facts();
    while let Some(greatest) = greatest_of(buckets) {
        let coefficient = take_all_at(modulus, buckets, &greatest);
        if coefficient != 0 {
            return Some(Term {
                coefficient,
                ..greatest
            });
        }
    }
    None
}

/// Adds terms to a bucket where their sum has room there, and empties it and answers the sum where it hasn't.
fn enter_bucket(
    alloc: Global,
    modulus: Modulus,
    bucket: &mut Bucket,
    room: usize,
    terms: Vec<Term>,
) -> Result<Option<Vec<Term>>, OutOfMemory>
    requires bucket { IsCanonical (place_cmp ones) modulus bucket.old }
    requires terms { IsCanonical (place_cmp ones) modulus terms.items }
    ensures canonical { IsCanonical (place_cmp ones) modulus bucket.new }
    ensures entered { IfOk result (λ o. MatchOption o (bucket.new ≡ row_sum (plain modulus) bucket.old terms.items)
        (λ v. (bucket.new ≡ []) × (v.items ≡ row_sum (plain modulus) bucket.old terms.items))) }
{
    modulus.facts();
    let sum = bucket.plus(alloc, modulus, terms)?;
    if sum.len() <= room {
        *bucket = Bucket::from_terms(sum);
        Ok(None)
    } else {
        *bucket = Bucket::from_terms(Vec::new(alloc));
        Ok(Some(sum))
    }
}

/// Adds terms to the sum of the buckets: to the first one that has room for as many, or a new one. What outgrows a
/// bucket goes on to the next one that has room.
pub(crate) fn enter(
    alloc: Global,
    modulus: Modulus,
    buckets: &mut Vec<Bucket>,
    terms: Vec<Term>,
) -> Result<(), OutOfMemory>
    requires buckets { AreCanonical modulus buckets.old.items }
    requires terms { IsCanonical (place_cmp ones) modulus terms.items }
    ensures canonical { AreCanonical modulus buckets.new.items }
    ensures sum { OnOk result (sum_of_lists modulus buckets.new.items
        ≡ row_sum (plain modulus) terms.items (sum_of_lists modulus buckets.old.items)) }
{
    modulus.facts();
    let mut terms = terms;
    let mut room = LEAST_ROOM;
    for level in 0..buckets.len() {
        if terms.len() <= room {
            match enter_bucket(alloc, modulus, &mut buckets[level], room, terms)? {
                None => {
                    return Ok(());
                }
                Some(sum) => {
                    terms = sum;
                }
            }
        }
        room = room.saturating_mul(4);
    }
    buckets.push(Bucket::from_terms(terms))?;
    Ok(())
}
