ghost use Rattle.std.specs.Prelude.{◌≤◌};
ghost use Rattle.sf_algebra.specs.Monomials.{VARIABLES};

use crate::columns::columns_of;
use sf_field::OutOfMemory;
use sf_matrix::{Free, List};
use std::alloc::Global;
use std::test::Fail;

/// Of each place the exponents of x, y and z, and the position.
type Listed = Vec<(u16, u16, u16, u64)>;

/// The places of a degree over generators of these degrees.
fn listed(
    alloc: Global,
    variables: usize,
    degrees: &[i32],
    degree: i32,
    most: usize,
) -> Result<Option<Listed>, OutOfMemory>
    requires { variables ≤ VARIABLES }
{
    let target = Free {
        degrees: List::from_slice(alloc, degrees)?,
    };
    let Some(places) = columns_of(alloc, variables, &target, degree, most)? else {
        return Ok(None);
    };
    let mut exponents = Vec::new(alloc);
    for place in &places {
        let a = place.monomial;
        exponents.push((a.exponent(0), a.exponent(1), a.exponent(2), place.position))?;
    }
    Ok(Some(exponents))
}

#[test]
fn lists_the_greatest_place_first(rt: HostRuntime) -> Result<(), Fail> {
    let alloc = rt.alloc();
    let places = listed(alloc, 2, [0, 1].as_slice(), 2, 5)?.ok_or("two variables")?;
    let wanted = [
        (2, 0, 0, 0),
        (1, 1, 0, 0),
        (0, 2, 0, 0),
        (1, 0, 0, 1),
        (0, 1, 0, 1),
    ];
    assert_eq!(rt; places.as_slice(), wanted.as_slice());
    let places = listed(alloc, 3, [3, -1].as_slice(), 1, 6)?.ok_or("three variables")?;
    let wanted = [
        (2, 0, 0, 1),
        (1, 1, 0, 1),
        (0, 2, 0, 1),
        (1, 0, 1, 1),
        (0, 1, 1, 1),
        (0, 0, 2, 1),
    ];
    assert_eq!(rt; places.as_slice(), wanted.as_slice());
    Ok(())
}

#[test]
fn counts_the_places_of_six_variables(rt: HostRuntime) -> Result<(), Fail> {
    let places = listed(rt.alloc(), 6, [0].as_slice(), 5, 252)?.ok_or("six variables")?;
    assert_eq!(rt; places.len(), 252);
    Ok(())
}

#[test]
fn lists_generators_over_no_variable(rt: HostRuntime) -> Result<(), Fail> {
    let places = listed(rt.alloc(), 0, [2, 1, 2].as_slice(), 2, 2)?.ok_or("no variable")?;
    assert_eq!(rt; places.as_slice(), [(0, 0, 0, 0), (0, 0, 0, 2)].as_slice());
    Ok(())
}

#[test]
fn lists_no_more_than_asked(rt: HostRuntime) -> Result<(), Fail> {
    let alloc = rt.alloc();
    assert_eq!(rt; listed(alloc, 2, [0, 1].as_slice(), 2, 4)?.is_none(), true);
    assert_eq!(rt;
        listed(alloc, 2, [0].as_slice(), 65_536, 9)?.is_none(),
        true
    );
    Ok(())
}
