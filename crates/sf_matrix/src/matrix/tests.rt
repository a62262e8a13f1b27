ghost use Rattle.std.specs.Prelude.{◌≡◌, [], ◌∷◌, IfOk, pos};
ghost use Rattle.sf_algebra.specs.Monomials.{variable};
ghost use Rattle.sf_algebra.specs.Rings.{plain};
ghost use Rattle.sf_matrix.specs.Places.{term_of};

use crate::free::Free;
use crate::list::List;
use crate::matrix::Matrix;
use crate::vector::Vector;
use sf_field::{Copied, Modulus, OutOfMemory};
use sf_mono::Mono;
use std::alloc::Global;
use std::test::Fail;

/// The matrix with the rows x and y modulo 7, over a generator of degree 0.
fn variables(alloc: Global) -> Result<Matrix, Fail>
    ensures { IfOk result (λ m. m ≡ record {
      ring = plain 7;
      target = pos 0 ∷ [];
      rows = record { degree = pos 1; terms = term_of 0 (variable 0) 1 ∷ [] }
          ∷ record { degree = pos 1; terms = term_of 0 (variable 1) 1 ∷ [] }
          ∷ [];
    }) }
{
    let seven = Modulus::from_number(7).ok_or("seven")?;
    let x = Mono::from_exponents([1, 0, 0, 0, 0, 0]).ok_or("x")?;
    let y = Mono::from_exponents([0, 1, 0, 0, 0, 0]).ok_or("y")?;
    let degrees = List::from_slice(alloc, [0].as_slice())?;
    let mut matrix = Matrix::new(alloc, seven, Free { degrees });
    matrix.push_row(row_of(alloc, x)?)?;
    matrix.push_row(row_of(alloc, y)?)?;
    Ok(matrix)
}

fn row_of(alloc: Global, a: Mono) -> Result<Vector, OutOfMemory>
    ensures { IfOk result (λ v. v ≡ record { degree = pos 1; terms = term_of 0 a 1 ∷ [] }) }
{
    let mut row = Vector::zero(alloc, 1);
    row.push(0, a, 1)?;
    Ok(row)
}

/// A term of a matrix: its row, its column, the exponents of the first two variables, and its coefficient.
type Entry = (usize, u64, u16, u16, u32);

fn entries_of(alloc: Global, matrix: &Matrix) -> Result<Vec<Entry>, Fail> {
    let mut entries = Vec::new(alloc);
    for (i, row) in matrix.rows.iter().enumerate() {
        for term in &row.terms {
            let a = term.monomial;
            entries.push((
                i,
                term.position,
                a.exponent(0),
                a.exponent(1),
                term.coefficient,
            ))?;
        }
    }
    Ok(entries)
}

#[test]
fn transposes_and_products(rt: HostRuntime) -> Result<(), Fail> {
    let alloc = rt.alloc();
    let column = variables(alloc)?;
    let row = column.transpose(alloc)?;
    let product = column.product(alloc, &row)?;
    let entries = entries_of(alloc, &product)?;
    let expected = [
        (0, 0, 2, 0, 1),
        (0, 1, 1, 1, 1),
        (1, 0, 1, 1, 1),
        (1, 1, 0, 2, 1),
    ];
    assert_eq!(rt; entries.as_slice(), expected.as_slice());
    assert_eq!(rt; product.target.degrees.as_slice(), [-1, -1].as_slice());
    Ok(())
}

#[test]
fn kronecker_products(rt: HostRuntime) -> Result<(), Fail> {
    let alloc = rt.alloc();
    let row = variables(alloc)?.transpose(alloc)?;
    let identity = Matrix::identity(alloc, row.modulus, &row.target)?;
    let product = row.kron(alloc, &identity)?;
    let entries = entries_of(alloc, &product)?;
    let expected = [
        (0, 0, 1, 0, 1),
        (0, 2, 0, 1, 1),
        (1, 1, 1, 0, 1),
        (1, 3, 0, 1, 1),
    ];
    assert_eq!(rt; entries.as_slice(), expected.as_slice());
    Ok(())
}

#[test]
fn negatives_and_stacks(rt: HostRuntime) -> Result<(), Fail> {
    let alloc = rt.alloc();
    let column = variables(alloc)?;
    let negative = column.negate(alloc)?;
    let stack = column.stack(alloc, &negative)?;
    let entries = entries_of(alloc, &stack)?;
    let expected = [
        (0, 0, 1, 0, 1),
        (1, 0, 0, 1, 1),
        (2, 0, 1, 0, 6),
        (3, 0, 0, 1, 6),
    ];
    assert_eq!(rt; entries.as_slice(), expected.as_slice());
    assert_ne!(rt; negative, column);
    Ok(())
}

#[test]
fn parts_and_copies(rt: HostRuntime) -> Result<(), Fail> {
    let alloc = rt.alloc();
    let column = variables(alloc)?;
    let part = column.part(alloc, 1, 2, 0, 1)?;
    let entries = entries_of(alloc, &part)?;
    assert_eq!(rt; entries.as_slice(), [(0, 0, 0, 1, 1)].as_slice());
    assert_eq!(rt; column.copy(alloc)?, column);
    Ok(())
}
