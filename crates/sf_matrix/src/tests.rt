use super::*;
use sf_field::Modulus;
use sf_mono::Mono;
use std::test::Fail;

#[test]
fn lists(rt: HostRuntime) -> Result<(), Fail> {
    let mut list = List::with_capacity(rt.alloc(), 2)?;
    assert!(rt; list.is_empty());
    list.push(3)?;
    list.push(-1)?;
    assert_eq!(rt; list.len(), 2);
    let copy = list.copy(rt.alloc())?;
    let items = list.into_vec();
    assert_eq!(rt; items.as_slice(), [3, -1].as_slice());
    assert_eq!(rt; List::from_vec(items), copy);
    Ok(())
}

#[test]
fn names(rt: HostRuntime) -> Result<(), Fail> {
    let name = Name::from_text(rt.alloc(), "y2")?;
    assert_eq!(rt; name.as_str(), "y2");
    assert_eq!(rt; name.copy(rt.alloc())?, name);
    assert_ne!(rt; name, Name::from_text(rt.alloc(), "x")?);
    Ok(())
}

#[test]
fn vector_of_two_terms(rt: HostRuntime) -> Result<(), Fail> {
    let x = Mono::from_exponents([1, 0, 0, 0, 0, 0]).ok_or("x")?;
    let mut vector = Vector::zero(rt.alloc(), -2);
    assert!(rt; vector.is_empty());
    vector.push(3, x, 6)?;
    vector.push(3, Mono::one(), 1)?;
    assert_eq!(rt; vector.degree(), -2);
    assert_eq!(rt; vector.len(), 2);
    assert_eq!(rt; vector.term(1), (3, Mono::one(), 1));
    Ok(())
}

#[test]
fn matrix_of_two_rows(rt: HostRuntime) -> Result<(), Fail> {
    let seven = Modulus::from_number(7).ok_or("seven")?;
    let degrees = List::from_slice(rt.alloc(), [0, 1].as_slice())?;
    let mut row = Vector::zero(rt.alloc(), 1);
    row.push(1, Mono::one(), 3)?;
    let mut matrix = Matrix::new(rt.alloc(), seven, Free { degrees });
    matrix.push_row(row)?;
    matrix.push_row(Vector::zero(rt.alloc(), -2))?;
    assert_eq!(rt; matrix.rows(), 2);
    assert_eq!(rt; matrix.cols(), 2);
    assert!(rt; has_small_size(&matrix));
    assert_eq!(rt; matrix.modulus(), seven);
    assert_eq!(rt; matrix.target().degrees.as_slice(), [0, 1].as_slice());
    assert_eq!(rt; matrix.row(1).degree(), -2);
    Ok(())
}

#[test]
fn bounds_of_size_and_degree(rt: HostRuntime) {
    assert!(rt; fits(4096, 4096, -8000, 8000));
    assert!(rt; !fits(4097, 0, 0, 0));
}
