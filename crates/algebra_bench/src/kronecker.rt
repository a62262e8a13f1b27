ghost use Rattle.std.specs.Prelude.{◌≡◌, IfOk, pos};
ghost use Rattle.sf_algebra.specs.Monomials.{exponent_sum};
ghost use Rattle.sf_algebra.specs.Rings.{plain};
ghost use Rattle.sf_algebra.specs.Vectors.{IsVector};
ghost use Rattle.algebra_bench.specs.Operands.{AreFlat, IsOperand};

use crate::generator::Generator;
use crate::outcome::Outcome;
use anyhow::{Context, Result, ensure};
use sf_field::Modulus;
use sf_matrix::{Free, List, Matrix, Term, Vector};
use sf_mono::Mono;
use std::alloc::Global;

/// Takes the Kronecker product of a 60 by 60 matrix with the identity of 60 generators, as many times as the rounds say.
pub fn multiply_by_identity(alloc: Global, modulus: Modulus, rounds: u32) -> Result<Outcome> {
    modulus.facts();
    let mut numbers = Generator::from_seed(1);
    let matrix = random_matrix(alloc, modulus, &mut numbers)?;
    let identity = Matrix::identity(alloc, modulus, matrix.target())?;
    let degrees = List::new(alloc);
    let mut product = Matrix::new(alloc, modulus, Free { degrees });
    for _ in 0..rounds.max(1) {
        product = matrix.kron(alloc, &identity)?;
    }
    Ok(Outcome::of_matrix(&product))
}

/// A matrix of 60 rows over 60 generators, each entry of which is a variable with a coefficient.
fn random_matrix(alloc: Global, modulus: Modulus, numbers: &mut Generator) -> Result<Matrix>
    ensures ring { IfOk result (λ m. m.ring ≡ plain modulus) }
    ensures operand { IfOk result IsOperand }
{
    let degrees = List::from_slice(alloc, [0; 60].as_slice())?;
    let mut matrix = Matrix::new(alloc, modulus, Free { degrees });
    for _ in 0..60_u8 {
        let row = random_row(alloc, modulus, matrix.target().degrees.as_slice(), numbers)?;
        matrix.push_row(row)?;
    }
    // its rows are homogeneous
    let _rows = matrix.rows();
    Ok(matrix)
}

/// A row over the generators of these degrees, each entry of which is a variable with a coefficient.
fn random_row(
    alloc: Global,
    modulus: Modulus,
    degrees: &[i32],
    numbers: &mut Generator,
) -> Result<Vector>
    requires flat { AreFlat degrees.now }
    ensures vector { IfOk result (IsVector (plain modulus) degrees.now) }
    ensures degree { IfOk result (λ v. v.degree ≡ pos 1) }
{
    let mut terms = Vec::with_capacity(alloc, degrees.len())?;
    for position in 0..degrees.len() {
        terms.push(Term {
            position: position as u64,
            monomial: random_variable(numbers)?,
            coefficient: numbers.next_coefficient(modulus),
        })?;
    }
    Ok(Vector::from_terms(alloc, modulus, 1, &terms)?)
}

/// One of the six variables.
fn random_variable(numbers: &mut Generator) -> Result<Mono>
    ensures { IfOk result (λ a. exponent_sum a ≡ 1) }
{
    let mut exponents = [0; 6];
    exponents[(numbers.next_number() % 6) as usize] = 1;
    let variable = Mono::from_exponents(exponents).context("too great")?;
    ensure!(variable.sum() == 1, "not a variable");
    Ok(variable)
}
