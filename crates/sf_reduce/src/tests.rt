ghost use Rattle.std.specs.Prelude.{◌≡◌, [], ◌∷◌, IfOk, pos};
ghost use Rattle.sf_algebra.specs.Monomials.{from_exponents};
ghost use Rattle.sf_algebra.specs.Rings.{plain};
ghost use Rattle.sf_matrix.specs.Places.{term_of};

use crate::division::normal_form;
use crate::pairs::s_vector;
use sf_field::{Modulus, OutOfMemory};
use sf_matrix::{Free, List, Matrix, Vector};
use sf_mono::Mono;
use std::alloc::Global;
use std::test::Fail;

/// The monomial of x and y with these exponents.
fn monomial(x: u16, y: u16) -> Result<Mono, Fail>
    ensures { IfOk result (λ a. a ≡ from_exponents (x ∷ y ∷ [])) }
{
    Ok(Mono::from_exponents([x, y, 0, 0, 0, 0]).ok_or("a monomial")?)
}

/// The monomial of these exponents at a generator.
fn row_at(alloc: Global, degree: i32, position: u64, a: Mono) -> Result<Vector, OutOfMemory>
    ensures { IfOk result (λ v. v ≡ record { degree = degree; terms = term_of position a 1 ∷ [] }) }
{
    let mut row = Vector::zero(alloc, degree);
    row.push(position, a, 1)?;
    Ok(row)
}

/// No rows modulo 101 yet, over two generators of degree 0.
fn no_rows(alloc: Global) -> Result<Matrix, Fail>
    ensures { IfOk result (λ m. m ≡ record { ring = plain 101; target = pos 0 ∷ pos 0 ∷ []; rows = [] }) }
{
    let modulus = Modulus::from_number(101).ok_or("a modulus")?;
    let degrees = List::from_slice(alloc, [0, 0].as_slice())?;
    Ok(Matrix::new(alloc, modulus, Free { degrees }))
}

/// The rows x and y at the first generator, and y at the second.
fn variables(alloc: Global) -> Result<Matrix, Fail>
    ensures { IfOk result (λ m. m ≡ record {
      ring = plain 101;
      target = pos 0 ∷ pos 0 ∷ [];
      rows = record { degree = pos 1; terms = term_of 0 (from_exponents (1 ∷ 0 ∷ [])) 1 ∷ [] }
          ∷ record { degree = pos 1; terms = term_of 0 (from_exponents (0 ∷ 1 ∷ [])) 1 ∷ [] }
          ∷ record { degree = pos 1; terms = term_of 1 (from_exponents (0 ∷ 1 ∷ [])) 1 ∷ [] }
          ∷ [];
    }) }
{
    let x = monomial(1, 0)?;
    let y = monomial(0, 1)?;
    let mut rows = no_rows(alloc)?;
    rows.push_row(row_at(alloc, 1, 0, x)?)?;
    rows.push_row(row_at(alloc, 1, 0, y)?)?;
    rows.push_row(row_at(alloc, 1, 1, y)?)?;
    Ok(rows)
}

/// The rows x^2 and x y + y^2.
fn quadrics(alloc: Global) -> Result<Matrix, Fail>
    ensures { IfOk result (λ m. m ≡ record {
      ring = plain 101;
      target = pos 0 ∷ pos 0 ∷ [];
      rows = record { degree = pos 2; terms = term_of 0 (from_exponents (2 ∷ 0 ∷ [])) 1 ∷ [] }
          ∷ record {
            degree = pos 2;
            terms = term_of 0 (from_exponents (1 ∷ 1 ∷ [])) 1 ∷ term_of 0 (from_exponents (0 ∷ 2 ∷ [])) 1 ∷ [];
          }
          ∷ [];
    }) }
{
    let mut sum = row_at(alloc, 2, 0, monomial(1, 1)?)?;
    sum.push(0, monomial(0, 2)?, 1)?;
    let mut rows = no_rows(alloc)?;
    rows.push_row(row_at(alloc, 2, 0, monomial(2, 0)?)?)?;
    rows.push_row(sum)?;
    Ok(rows)
}

/// A term of a vector: its generator, the exponents of x and y, and its coefficient.
type Entry = (u64, u16, u16, u32);

fn entries_of(alloc: Global, v: &Vector) -> Result<Vec<Entry>, OutOfMemory> {
    let mut entries = Vec::new(alloc);
    for term in v.terms() {
        let a = term.monomial;
        entries.push((
            term.position,
            a.exponent(0),
            a.exponent(1),
            term.coefficient,
        ))?;
    }
    Ok(entries)
}

#[test]
fn variables_have_a_zero_s_vector(rt: HostRuntime) -> Result<(), Fail> {
    let rows = variables(rt.alloc())?;
    let zero = s_vector(rt.alloc(), &rows, 0, 1)?.ok_or("two generators")?;
    assert!(rt; zero.is_empty());
    assert_eq!(rt; zero.degree(), 2);
    assert!(rt; s_vector(rt.alloc(), &rows, 0, 2)?.is_none());
    Ok(())
}

#[test]
fn quadrics_have_an_s_vector(rt: HostRuntime) -> Result<(), Fail> {
    let rows = quadrics(rt.alloc())?;
    let v = s_vector(rt.alloc(), &rows, 0, 1)?.ok_or("two generators")?;
    let entries = entries_of(rt.alloc(), &v)?;
    assert_eq!(rt; entries.as_slice(), [(0, 1, 2, 100)].as_slice());
    assert_eq!(rt; v.degree(), 3);
    Ok(())
}

#[test]
fn squares_are_divided_by_variables(rt: HostRuntime) -> Result<(), Fail> {
    let rows = variables(rt.alloc())?;
    let square = row_at(rt.alloc(), 2, 0, monomial(0, 2)?)?;
    let (rest, quotients) = normal_form(rt.alloc(), &square, &rows)?;
    assert!(rt; rest.is_empty());
    let entries = entries_of(rt.alloc(), &quotients)?;
    assert_eq!(rt; entries.as_slice(), [(1, 0, 1, 1)].as_slice());
    Ok(())
}

#[test]
fn units_are_not_divided_by_variables(rt: HostRuntime) -> Result<(), Fail> {
    let rows = variables(rt.alloc())?;
    let unit = row_at(rt.alloc(), 0, 0, Mono::one())?;
    let (rest, quotients) = normal_form(rt.alloc(), &unit, &rows)?;
    let entries = entries_of(rt.alloc(), &rest)?;
    assert_eq!(rt; entries.as_slice(), [(0, 0, 0, 1)].as_slice());
    assert!(rt; quotients.is_empty());
    Ok(())
}
