use crate::{Cells, Entry, Place, multiple_entries, terms_of};
use sf_field::Modulus;
use sf_matrix::Term;
use sf_mono::Mono;
use std::test::Fail;

fn place(x: u16, y: u16) -> Option<Place> {
    let monomial = Mono::from_exponents([x, y, 0, 0, 0, 0])?;
    Some(Place {
        monomial,
        position: 2,
    })
}

fn term(x: u16, y: u16, coefficient: u32) -> Option<Term> {
    let monomial = Mono::from_exponents([x, y, 0, 0, 0, 0])?;
    Some(Term {
        monomial,
        position: 2,
        coefficient,
    })
}

fn entry(cell: u32, coefficient: u16) -> Entry {
    Entry { cell, coefficient }
}

#[test]
fn finds_the_places_of_a_multiple(rt: HostRuntime) -> Result<(), Fail> {
    let alloc = rt.alloc();
    let y = Mono::from_exponents([0, 1, 0, 0, 0, 0]).ok_or("y")?;
    let highest = Mono::from_exponents([0, 65_535, 0, 0, 0, 0]).ok_or("highest")?;
    let x_2 = place(2, 0).ok_or("x^2")?;
    let xy = place(1, 1).ok_or("x y")?;
    let y_2 = place(0, 2).ok_or("y^2")?;
    // 3 x + 5 y, times y
    let terms = [term(1, 0, 3).ok_or("3 x")?, term(0, 1, 5).ok_or("5 y")?];
    let entries = multiple_entries(alloc, &[x_2, xy, y_2], &terms, y)?.ok_or("the multiple")?;
    assert_eq!(rt; entries.as_slice(), [entry(1, 3), entry(2, 5)].as_slice());
    // y^2 isn't there, a monomial is too high, a coefficient is too great
    assert!(rt; multiple_entries(alloc, &[x_2, xy], &terms, y)?.is_none());
    assert!(rt; multiple_entries(alloc, &[x_2, xy, y_2], &terms, highest)?.is_none());
    let great = term(1, 0, 65_536).ok_or("65,536 x")?;
    assert!(rt; multiple_entries(alloc, &[x_2, xy, y_2], &[great], y)?.is_none());
    Ok(())
}

#[test]
fn turns_entries_back_into_terms(rt: HostRuntime) -> Result<(), Fail> {
    let xy = place(1, 1).ok_or("x y")?;
    let y_2 = place(0, 2).ok_or("y^2")?;
    let entries = [
        Entry {
            cell: 0,
            coefficient: 3,
        },
        Entry {
            cell: 1,
            coefficient: 5,
        },
    ];
    let terms = terms_of(rt.alloc(), &[xy, y_2], &entries)?;
    let expected = [term(1, 1, 3).ok_or("3 x y")?, term(0, 2, 5).ok_or("5 y^2")?];
    assert_eq!(rt; terms.as_slice(), expected.as_slice());
    Ok(())
}

#[test]
fn adds_entries_and_reads_them_off(rt: HostRuntime) -> Result<(), Fail> {
    let alloc = rt.alloc();
    let seven = Modulus::from_number(7).ok_or("seven")?;
    let mut cells = Cells::zero(alloc, 3)?;
    assert!(rt; cells.monic_entries(alloc, seven)?.is_none());
    // 2 (3, 5, 0) + 4 (0, 3, 5) = (6, 22, 20), which is (6, 1, 6) modulo 7
    assert!(rt; cells.add(2, &[entry(0, 3), entry(1, 5)]));
    assert!(rt; cells.add(4, &[entry(1, 3), entry(2, 5)]));
    assert_eq!(rt; cells.len(), 3);
    assert_eq!(rt; cells.residue(seven, 1), 1);
    assert_eq!(rt; cells.residue(seven, 2), 6);
    assert_eq!(rt; cells.residue(seven, 3), 0);
    // the inverse of 6 is 6
    let monic = cells.monic_entries(alloc, seven)?.ok_or("the sum")?;
    assert_eq!(rt;
        monic.as_slice(),
        [entry(0, 1), entry(1, 6), entry(2, 1)].as_slice()
    );
    // (7, 22, 20) is (0, 1, 6); the number 3 is past the end
    assert!(rt; cells.add(1, &[entry(0, 1), entry(3, 1)]));
    let monic = cells.monic_entries(alloc, seven)?.ok_or("the rest")?;
    assert_eq!(rt; monic.as_slice(), [entry(1, 1), entry(2, 6)].as_slice());
    cells.clear();
    assert!(rt; cells.monic_entries(alloc, seven)?.is_none());
    Ok(())
}
