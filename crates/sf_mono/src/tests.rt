use super::*;
use std::cmp::Ordering;
use std::test::Fail;

fn monomial(exponents: [u16; 6]) -> Result<Mono, Fail> {
    Ok(Mono::from_exponents(exponents).ok_or("the sum of the exponents")?)
}

#[test]
fn exponents_and_their_sum(rt: HostRuntime) -> Result<(), Fail> {
    assert!(rt; Mono::from_exponents([65535, 1, 0, 0, 0, 0]).is_none());
    let a = monomial([0, 1, 2, 3, 4, 5])?;
    assert_eq!(rt; a.sum(), 15);
    assert_eq!(rt; a.exponent(4), 4);
    assert_eq!(rt; a.mul(Mono::one()), a);
    Ok(())
}

// The examples of Cox, Little, O'Shea, "Ideals, Varieties, and Algorithms", chapter 2, section 2.
#[test]
fn monomials_in_order(rt: HostRuntime) -> Result<(), Fail> {
    for (left, right) in [
        ([4, 7, 1, 0, 0, 0], [4, 2, 3, 0, 0, 0]),
        ([1, 5, 2, 0, 0, 0], [4, 1, 3, 0, 0, 0]),
    ] {
        assert_eq!(rt; monomial(left)?.cmp(&monomial(right)?), Ordering::Greater);
    }
    Ok(())
}

#[test]
fn quotients_by_divisors(rt: HostRuntime) -> Result<(), Fail> {
    let divisor = monomial([1, 2, 3, 4, 5, 6])?;
    let dividend = monomial([2, 2, 3, 4, 5, 7])?;
    assert!(rt; !dividend.divides(divisor));
    assert!(rt; divisor.divides(dividend));
    assert_eq!(rt; dividend.quotient(divisor), monomial([1, 0, 0, 0, 0, 1])?);
    Ok(())
}

// The example of Cox, Little, O'Shea, "Ideals, Varieties, and Algorithms", chapter 2, section 6.
#[test]
fn least_common_multiples(rt: HostRuntime) -> Result<(), Fail> {
    let left = monomial([3, 2, 0, 0, 0, 0])?;
    let right = monomial([4, 1, 0, 0, 0, 0])?;
    assert!(rt; left.sum() + right.sum() <= 65535);
    assert_eq!(rt; left.lcm(right), monomial([4, 2, 0, 0, 0, 0])?);
    Ok(())
}
