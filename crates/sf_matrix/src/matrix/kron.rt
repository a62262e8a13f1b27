ghost use Rattle.std.specs.Prelude.{◌≡◌, ◌+◌, ◌*◌, ◌^◌, ◌<◌, ◌≤◌, ◌++◌, ◌+ℤ◌, length, map, IfOk, OnOk};
ghost use Rattle.std.specs.List.{AllByRecursion};
ghost use Rattle.sf_algebra.specs.Matrices.{row_degrees};
ghost use Rattle.sf_algebra.specs.MatrixOperations.{moved, degree_sums, kronecker_terms, kronecker};
ghost use Rattle.sf_algebra.specs.Multiples.{place_product, term_product};
ghost use Rattle.sf_algebra.specs.Rings.{plain, ones};
ghost use Rattle.sf_algebra.specs.Terms.{IsCanonical, IsNonzeroResidue};
ghost use Rattle.sf_algebra.specs.Vectors.{place_cmp};
ghost use Rattle.sf_matrix.specs.Bounds.{IsDegree, SumsFit, HasRoom, TermsFit, PositionsFit, KroneckerFits};
ghost use Rattle.sf_matrix.specs.Places.{factor_of, kronecker_vector};

use crate::free::Free;
use crate::list::List;
use crate::matrix::Matrix;
use crate::sums::sum_of_gathered;
use crate::vector::{Term, Vector};
use sf_field::{Modulus, OutOfMemory};
use std::alloc::Global;

impl Matrix {
    /// The Kronecker product: each row of this matrix with each row of `other`.
    ///
    /// Row `i` of this matrix and row `k` of `other` give row `i * other.rows() + k`; the entries at the columns `j`
    /// and `l` give the one at `j * other.cols() + l`. Degrees add.
    pub fn kron(&self, alloc: Global, other: &Matrix) -> Result<Matrix, OutOfMemory>
        requires ring { other.now.ring ≡ self.now.ring }
        requires columns { length self.now.target * length other.now.target < 2 ^ 64 }
        requires target { SumsFit self.now.target other.now.target }
        requires degrees { SumsFit (row_degrees self.now) (row_degrees other.now) }
        requires room { KroneckerFits self.now.rows other.now.rows }
        ensures kronecker { IfOk result (λ m. m ≡ kronecker self.now other.now) }
    {
        self.modulus.facts();
        let columns = other.cols() as u64;
        let mut rows = Vec::new(alloc);
        for left in &self.rows {
            push_rows(alloc, &mut rows, self.modulus, columns, left, &other.rows)?;
        }
        let target = self.target.degrees.as_slice();
        let degrees = degree_sums(alloc, target, other.target.degrees.as_slice())?;
        Ok(Matrix {
            modulus: self.modulus,
            target: Free { degrees },
            rows,
        })
    }
}

/// Adds the rows that `left` gives with each of the others, which have so many columns.
fn push_rows(
    alloc: Global,
    rows: &mut Vec<Vector>,
    modulus: Modulus,
    columns: u64,
    left: &Vector,
    others: &[Vector],
) -> Result<(), OutOfMemory>
    requires left { AllByRecursion (IsNonzeroResidue modulus) left.now.terms }
    requires residues { AllByRecursion (λ w. AllByRecursion (IsNonzeroResidue modulus) w.terms) others.now }
    requires degrees { AllByRecursion (λ w. IsDegree (left.now.degree +ℤ w.degree)) others.now }
    requires room { AllByRecursion (λ w. TermsFit left.now.terms w.terms) others.now }
    requires positions { AllByRecursion (λ w. PositionsFit columns left.now.terms w.terms) others.now }
    ensures ok { OnOk result (rows.new.items ≡ rows.old.items ++ map (kronecker_vector (plain modulus) columns left.now) others.now) }
{
    for right in others {
        rows.push(kronecker_vector(alloc, modulus, columns, left, right)?)?;
    }
    Ok(())
}

/// The tensor product of a vector with a vector over so many columns.
fn kronecker_vector(
    alloc: Global,
    modulus: Modulus,
    columns: u64,
    left: &Vector,
    right: &Vector,
) -> Result<Vector, OutOfMemory>
    requires left { AllByRecursion (IsNonzeroResidue modulus) left.now.terms }
    requires right { AllByRecursion (IsNonzeroResidue modulus) right.now.terms }
    requires degree { IsDegree (left.now.degree +ℤ right.now.degree) }
    requires room { TermsFit left.now.terms right.now.terms }
    requires positions { PositionsFit columns left.now.terms right.now.terms }
    ensures { IfOk result (λ v. v ≡ kronecker_vector (plain modulus) columns left.now right.now) }
{
    let terms = kronecker_terms(alloc, modulus, columns, &left.terms, &right.terms)?;
    let degree = degree_sum(left.degree, right.degree);
    Ok(Vector { degree, terms })
}

/// The tensor product of the terms of a vector with those of a vector over so many columns.
fn kronecker_terms(
    alloc: Global,
    modulus: Modulus,
    columns: u64,
    left: &[Term],
    right: &[Term],
) -> Result<Vec<Term>, OutOfMemory>
    requires left { AllByRecursion (IsNonzeroResidue modulus) left.now }
    requires right { AllByRecursion (IsNonzeroResidue modulus) right.now }
    requires room { TermsFit left.now right.now }
    requires positions { PositionsFit columns left.now right.now }
    ensures terms { IfOk result (λ v. v.items ≡ kronecker_terms (plain modulus) columns left.now right.now) }
    ensures canonical { IfOk result (λ v. IsCanonical (place_cmp ones) modulus v.items) }
{
    let products = left.len().saturating_mul(right.len());
    let mut products = Vec::with_capacity(alloc, products)?;
    for factor in left {
        let by = factor.position * columns;
        push_moved_multiple(&mut products, modulus, factor, by, right)?;
    }
    sum_of_gathered(alloc, modulus, products)
}

/// Adds the products of a term of a polynomial, `factor`, with each of the terms, so many positions further on.
fn push_moved_multiple(
    products: &mut Vec<Term>,
    modulus: Modulus,
    factor: &Term,
    by: u64,
    terms: &[Term],
) -> Result<(), OutOfMemory>
    requires room { HasRoom factor.now.at.monomial terms.now }
    requires positions { AllByRecursion (λ u. by + u.at.position < 2 ^ 64) terms.now }
    requires residues { AllByRecursion (IsNonzeroResidue modulus) terms.now }
    requires factor { factor.now.coefficient < modulus }
    ensures ok { OnOk result (products.new.items
        ≡ products.old.items ++ map (term_product place_product modulus (factor_of factor.now)) (moved by terms.now)) }
{
    for term in terms {
        let moved = Term {
            position: by + term.position,
            ..*term
        };
        products.push(moved.times(modulus, factor))?;
    }
    Ok(())
}

/// The sums of a degree of the first list and one of the second.
fn degree_sums(alloc: Global, first: &[i32], second: &[i32]) -> Result<List<i32>, OutOfMemory>
    requires { SumsFit first.now second.now }
    ensures { IfOk result (λ l. l ≡ degree_sums first.now second.now) }
{
    let mut sums = List::new(alloc);
    for degree in first {
        push_degree_sums(&mut sums, *degree, second)?;
    }
    Ok(sums)
}

/// Adds the sums of a degree and each of the others.
fn push_degree_sums(sums: &mut List<i32>, degree: i32, others: &[i32]) -> Result<(), OutOfMemory>
    requires { AllByRecursion (λ e. IsDegree (degree +ℤ e)) others.now }
    ensures ok { OnOk result (sums.new ≡ sums.old ++ map (λ e. degree +ℤ e) others.now) }
{
    for other in others {
        sums.push(degree_sum(degree, *other))?;
    }
    Ok(())
}

/// The sum of two degrees.
fn degree_sum(first: i32, second: i32) -> i32
    requires { IsDegree (first +ℤ second) }
    ensures { result ≡ first +ℤ second }
{
    first + second
}
