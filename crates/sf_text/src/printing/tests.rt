ghost use Rattle.std.specs.Prelude.{◌≡◌, [], ◌∷◌, pos, IfOk};
ghost use Rattle.sf_algebra.specs.Monomials.{from_exponents};
ghost use Rattle.sf_algebra.specs.Rings.{plain};

use super::*;
use sf_field::Modulus;
use sf_matrix::{Free, List, Matrix, Name, Vector};
use sf_mono::Mono;
use std::alloc::Global;
use std::test::Fail;

#[test]
fn degrees(rt: HostRuntime) -> Result<(), Fail> {
    let table: [(&[i32], &[u8]); 3] = [(&[], b"()"), (&[0], b"(0)"), (&[-2, -1], b"(-2,-1)")];
    for (degrees, printed) in table {
        let mut text = Vec::new(rt.alloc());
        print_degrees(&mut text, degrees)?;
        assert_eq!(rt; text.as_slice(), printed);
    }
    Ok(())
}

#[test]
fn matrices(rt: HostRuntime) -> Result<(), Fail> {
    let alloc = rt.alloc();
    let names = [Name::from_text(alloc, "x")?, Name::from_text(alloc, "y")?];
    let table = [
        (variables(alloc)?, "(1,1)->(0) [x;y]"),
        (squares(alloc)?, "(2,0)->(1,0) [x,x^2+y^2;0,0]"),
        (
            coefficients(alloc)?,
            "(1,0,0,3)->(0) [x+100*y;100;1;7*x^2*y]",
        ),
        (over_zero(alloc)?, "()->(0) []"),
        (no_columns(alloc)?, "(1)->() []"),
    ];
    for (matrix, printed) in table {
        let mut text = Vec::new(rt.alloc());
        print_matrix(&mut text, &names, &matrix)?;
        assert_eq!(rt; text.as_slice(), printed.as_bytes());
    }
    Ok(())
}

fn monomial(exponents: [u16; 6]) -> Result<Mono, Fail>
    ensures { IfOk result (λ a. a ≡ from_exponents exponents) }
{
    Ok(Mono::from_exponents(exponents).ok_or("the sum of the exponents")?)
}

fn no_rows(alloc: Global, degrees: List<i32>) -> Result<Matrix, Fail>
    ensures { IfOk result (λ m. m ≡ record { ring = plain 101; target = degrees; rows = [] }) }
{
    let modulus = Modulus::from_number(101).ok_or("the modulus")?;
    Ok(Matrix::new(alloc, modulus, Free { degrees }))
}

fn over_zero(alloc: Global) -> Result<Matrix, Fail>
    ensures { IfOk result (λ m. m ≡ record { ring = plain 101; target = pos 0 ∷ []; rows = [] }) }
{
    let mut degrees = List::new(alloc);
    degrees.push(0)?;
    no_rows(alloc, degrees)
}

fn variables(alloc: Global) -> Result<Matrix, Fail> {
    let mut matrix = over_zero(alloc)?;
    let mut row = Vector::zero(alloc, 1);
    row.push(0, monomial([1, 0, 0, 0, 0, 0])?, 1)?;
    matrix.push_row(row)?;
    let mut row = Vector::zero(alloc, 1);
    row.push(0, monomial([0, 1, 0, 0, 0, 0])?, 1)?;
    matrix.push_row(row)?;
    Ok(matrix)
}

fn squares(alloc: Global) -> Result<Matrix, Fail> {
    let mut degrees = List::new(alloc);
    degrees.push(1)?;
    degrees.push(0)?;
    let mut matrix = no_rows(alloc, degrees)?;
    let mut row = Vector::zero(alloc, 2);
    row.push(0, monomial([1, 0, 0, 0, 0, 0])?, 1)?;
    row.push(1, monomial([2, 0, 0, 0, 0, 0])?, 1)?;
    row.push(1, monomial([0, 2, 0, 0, 0, 0])?, 1)?;
    matrix.push_row(row)?;
    matrix.push_row(Vector::zero(alloc, 0))?;
    Ok(matrix)
}

fn coefficients(alloc: Global) -> Result<Matrix, Fail> {
    let mut matrix = over_zero(alloc)?;
    let mut row = Vector::zero(alloc, 1);
    row.push(0, monomial([1, 0, 0, 0, 0, 0])?, 1)?;
    row.push(0, monomial([0, 1, 0, 0, 0, 0])?, 100)?;
    matrix.push_row(row)?;
    let mut row = Vector::zero(alloc, 0);
    row.push(0, Mono::one(), 100)?;
    matrix.push_row(row)?;
    let mut row = Vector::zero(alloc, 0);
    row.push(0, Mono::one(), 1)?;
    matrix.push_row(row)?;
    let mut row = Vector::zero(alloc, 3);
    row.push(0, monomial([2, 1, 0, 0, 0, 0])?, 7)?;
    matrix.push_row(row)?;
    Ok(matrix)
}

fn no_columns(alloc: Global) -> Result<Matrix, Fail> {
    let mut matrix = no_rows(alloc, List::new(alloc))?;
    matrix.push_row(Vector::zero(alloc, 1))?;
    Ok(matrix)
}
