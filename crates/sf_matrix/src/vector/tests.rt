use crate::vector::{Term, Vector};
use sf_field::{Copied, Modulus};
use sf_mono::Mono;
use std::test::Fail;

#[test]
fn sums_negatives_and_multiples(rt: HostRuntime) -> Result<(), Fail> {
    let alloc = rt.alloc();
    let seven = Modulus::from_number(7).ok_or("seven")?;
    let y = Mono::from_exponents([0, 1, 0, 0, 0, 0]).ok_or("y")?;
    let square = Mono::from_exponents([0, 2, 0, 0, 0, 0]).ok_or("the square of y")?;
    let mut vector = Vector::zero(alloc, 1);
    vector.push(3, y, 4)?;
    let multiple = vector.multiple(alloc, seven, y, 5)?;
    assert_eq!(rt; multiple.degree, 2);
    let term = Term {
        position: 3,
        monomial: square,
        coefficient: 6,
    };
    assert_eq!(rt; multiple.terms.as_slice(), [term].as_slice());
    let negative = vector.negative(alloc, seven)?;
    assert_ne!(rt; negative, vector);
    assert!(rt; vector.add(alloc, seven, &negative)?.is_empty());
    assert_eq!(rt; vector.copy(alloc)?, vector);
    Ok(())
}
