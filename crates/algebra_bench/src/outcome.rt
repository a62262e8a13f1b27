ghost use Rattle.std.specs.Prelude.{◌≡◌, ◌%◌, ◌^◌, length, sum_by};

use sf_matrix::{Matrix, Vector};
use sf_poly::Poly;

/// What came of a job, in brief.
#[derive(Drop)]
pub struct Outcome {
    /// The number of terms.
    pub terms: usize,
    /// The sum of the coefficients modulo 2^32.
    pub checksum: u32,
}

impl Outcome {
    /// That of a vector.
    pub fn of_vector(vector: &Vector) -> Outcome
        ensures terms { result.terms ≡ length vector.now.terms }
    {
        let mut checksum = 0_u32;
        for k in 0..vector.len() {
            let (_, _, coefficient) = vector.term(k);
            checksum = checksum.wrapping_add(coefficient);
        }
        Outcome {
            terms: vector.len(),
            checksum,
        }
    }

    /// That of a polynomial.
    pub fn of_polynomial(polynomial: &Poly) -> Outcome
        ensures terms { result.terms ≡ length polynomial.now.terms }
    {
        let mut checksum = 0_u32;
        for k in 0..polynomial.len() {
            let (_, coefficient) = polynomial.term_at(k);
            checksum = checksum.wrapping_add(coefficient);
        }
        Outcome {
            terms: polynomial.len(),
            checksum,
        }
    }

    /// That of a matrix; the number of its terms is taken modulo 2^64.
    pub fn of_matrix(matrix: &Matrix) -> Outcome
        ensures terms { result.terms ≡ sum_by (λ v. length v.terms) matrix.now.rows % 2 ^ 64 }
    {
        let mut terms = 0_usize;
        let mut checksum = 0_u32;
        for i in 0..matrix.rows() {
            let row = Outcome::of_vector(matrix.row(i));
            terms = terms.wrapping_add(row.terms);
            checksum = checksum.wrapping_add(row.checksum);
        }
        Outcome { terms, checksum }
    }
}
