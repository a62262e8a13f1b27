ghost use Rattle.std.specs.Prelude.{◌≡◌, IfOk};
ghost use Rattle.sf_algebra.specs.Rings.{plain};

use super::*;
use sf_field::{Copied, Modulus};
use sf_mono::Mono;
use std::alloc::Global;
use std::test::Fail;

/// A term: the exponents of the first two variables, and its coefficient.
type Row = (u16, u16, u32);

/// The sum of the terms.
fn polynomial(alloc: Global, modulus: Modulus, rows: &[Row]) -> Result<Poly, Fail>
    ensures { IfOk result (λ f. f.ring ≡ plain modulus) }
{
    match rows {
        [] => Ok(Poly::zero(alloc, modulus)),
        [(first, second, coefficient), others @ ..] => {
            let others = polynomial(alloc, modulus, others)?;
            let a = Mono::from_exponents([*first, *second, 0, 0, 0, 0]).ok_or("too great")?;
            let term = Poly::term(alloc, modulus, a, coefficient % modulus.value())?;
            Ok(term.add(alloc, &others)?)
        }
    }
}

/// Of two polynomials the sum, the difference and the product.
fn results(alloc: Global, f: &Poly, g: &Poly) -> Result<[Poly; 3], Fail>
    requires { f.now.ring ≡ g.now.ring }
{
    if !f.product_fits(g) {
        return Err("too great".into());
    }
    Ok([f.add(alloc, g)?, f.sub(alloc, g)?, f.mul(alloc, g)?])
}

#[test]
fn sums_differences_and_products(rt: HostRuntime) -> Result<(), Fail> {
    // modulus, two polynomials, their sum, their difference and their product
    let table: [(u64, &[Row], &[Row], [&[Row]; 3]); 2] = [
        (
            2,
            &[(1, 0, 1), (0, 1, 1), (0, 0, 1)],
            &[(1, 0, 1), (0, 1, 1), (0, 0, 1)],
            [&[], &[], &[(2, 0, 1), (0, 2, 1), (0, 0, 1)]],
        ),
        (
            32003,
            &[(2, 0, 32002), (0, 0, 3)],
            &[(1, 1, 2)],
            [
                &[(2, 0, 32002), (1, 1, 2), (0, 0, 3)],
                &[(2, 0, 32002), (1, 1, 32001), (0, 0, 3)],
                &[(3, 1, 32001), (1, 1, 6)],
            ],
        ),
    ];
    for (modulus, left, right, [sum, difference, product]) in table {
        let alloc = rt.alloc();
        let modulus = Modulus::from_number(modulus).ok_or("not a modulus")?;
        let left = polynomial(alloc, modulus, left)?;
        let right = polynomial(alloc, modulus, right)?;
        let results = results(alloc, &left, &right)?;
        assert_eq!(rt; results[0], polynomial(alloc, modulus, sum)?);
        assert_eq!(rt; results[1], polynomial(alloc, modulus, difference)?);
        assert_eq!(rt; results[2], polynomial(alloc, modulus, product)?);
    }
    Ok(())
}

#[test]
fn multiples(rt: HostRuntime) -> Result<(), Fail> {
    let alloc = rt.alloc();
    let seven = Modulus::from_number(7).ok_or("seven")?;
    let f = polynomial(alloc, seven, &[(2, 0, 3), (0, 1, 5)])?;
    let a = Mono::from_exponents([1, 2, 0, 0, 0, 0]).ok_or("too great")?;
    assert!(rt; f.multiple_fits(a));
    assert!(rt; 4 < f.modulus().value());
    let multiple = polynomial(alloc, seven, &[(3, 2, 5), (1, 3, 6)])?;
    assert_eq!(rt; f.scale(alloc, a, 4)?, multiple);
    Ok(())
}

#[test]
fn terms_and_leads(rt: HostRuntime) -> Result<(), Fail> {
    let alloc = rt.alloc();
    let seven = Modulus::from_number(7).ok_or("seven")?;
    let y = Mono::from_exponents([0, 1, 0, 0, 0, 0]).ok_or("y")?;
    let square = Mono::from_exponents([2, 0, 0, 0, 0, 0]).ok_or("the square of x")?;
    let f = polynomial(alloc, seven, &[(0, 1, 5), (2, 0, 3)])?.copy(alloc)?;
    assert_eq!(rt; f.modulus(), seven);
    assert_eq!(rt; f.lead(), Some((square, 3)));
    assert_eq!(rt; f.degree(), Some(2));
    assert_eq!(rt; f.len(), 2);
    assert_eq!(rt; f.term_at(1), (y, 5));
    let zero = Poly::zero(alloc, seven);
    assert_eq!(rt; zero.lead(), None);
    assert_eq!(rt; zero.degree(), None);
    assert!(rt; zero != f);
    Ok(())
}
