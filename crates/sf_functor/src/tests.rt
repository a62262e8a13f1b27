ghost use Rattle.std.specs.Prelude.{◌≡◌, [], ◌∷◌, IfOk, pos};
ghost use Rattle.sf_algebra.specs.Monomials.{variable};
ghost use Rattle.sf_algebra.specs.Rings.{plain};
ghost use Rattle.sf_matrix.specs.Places.{term_of};

use super::*;
use sf_field::Modulus;
use sf_matrix::{Free, List, Matrix, Vector};
use sf_mono::Mono;
use sf_object::Presented;
use std::alloc::Global;
use std::test::Fail;

/// Two generators of the degrees 0 and 5, and x times the second as the one relation, modulo 7.
fn module(alloc: Global) -> Result<Presented, Fail>
    ensures { IfOk result (λ n. n ≡ record {
      ring = plain 7;
      target = pos 0 ∷ pos 5 ∷ [];
      rows = record { degree = pos 6; terms = term_of 1 (variable 0) 1 ∷ [] } ∷ [];
    }) }
{
    let seven = Modulus::from_number(7).ok_or("seven")?;
    let x = Mono::from_exponents([1, 0, 0, 0, 0, 0]).ok_or("x")?;
    let degrees = List::from_slice(alloc, [0, 5].as_slice())?;
    let mut row = Vector::zero(alloc, 6);
    row.push(1, x, 1)?;
    let mut relations = Matrix::new(alloc, seven, Free { degrees });
    relations.push_row(row)?;
    Ok(Presented::new(relations))
}

/// The variable y as a map from a generator of degree 3 to one of degree 2, modulo 7.
fn second_variable(alloc: Global) -> Result<Matrix, Fail>
    ensures { IfOk result (λ m. m ≡ record {
      ring = plain 7;
      target = pos 2 ∷ [];
      rows = record { degree = pos 3; terms = term_of 0 (variable 1) 1 ∷ [] } ∷ [];
    }) }
{
    let seven = Modulus::from_number(7).ok_or("seven")?;
    let y = Mono::from_exponents([0, 1, 0, 0, 0, 0]).ok_or("y")?;
    let degrees = List::from_slice(alloc, [2].as_slice())?;
    let mut row = Vector::zero(alloc, 3);
    row.push(0, y, 1)?;
    let mut map = Matrix::new(alloc, seven, Free { degrees });
    map.push_row(row)?;
    Ok(map)
}

/// The generators of the degrees 1 and 2.
fn free(alloc: Global) -> Result<Free, Fail>
    ensures { IfOk result (λ d. d.degrees ≡ pos 1 ∷ pos 2 ∷ []) }
{
    let degrees = List::from_slice(alloc, [1, 2].as_slice())?;
    Ok(Free { degrees })
}

/// The degree of each row, with the positions of its terms.
fn positions_of(alloc: Global, m: &Matrix) -> Result<Vec<(i32, u64)>, Fail> {
    let mut positions = Vec::new(alloc);
    for i in 0..m.rows() {
        let row = m.row(i);
        for term in row.terms() {
            positions.push((row.degree(), term.position))?;
        }
    }
    Ok(positions)
}

#[test]
fn products_with_a_free_module(rt: HostRuntime) -> Result<(), Fail> {
    let alloc = rt.alloc();
    let product = tensor_free(alloc, &free(alloc)?, &module(alloc)?)?;
    assert_eq!(rt; product.free().degrees.as_slice(), [1, 6, 2, 7].as_slice());
    let positions = positions_of(alloc, product.relations())?;
    assert_eq!(rt; positions.as_slice(), [(7, 1), (8, 3)].as_slice());
    Ok(())
}

#[test]
fn maps_from_a_free_module(rt: HostRuntime) -> Result<(), Fail> {
    let alloc = rt.alloc();
    let maps = hom_free(alloc, &free(alloc)?, &module(alloc)?)?;
    assert_eq!(rt; maps.free().degrees.as_slice(), [-1, 4, -2, 3].as_slice());
    let positions = positions_of(alloc, maps.relations())?;
    assert_eq!(rt; positions.as_slice(), [(5, 1), (4, 3)].as_slice());
    Ok(())
}

#[test]
fn what_a_map_gives(rt: HostRuntime) -> Result<(), Fail> {
    let alloc = rt.alloc();
    let product = tensor_map(alloc, &second_variable(alloc)?, &module(alloc)?)?;
    assert_eq!(rt; product.target().degrees.as_slice(), [2, 7].as_slice());
    assert_eq!(rt;
        positions_of(alloc, &product)?.as_slice(),
        [(3, 0), (8, 1)].as_slice()
    );
    let maps = hom_map(alloc, &second_variable(alloc)?, &module(alloc)?)?;
    assert_eq!(rt; maps.target().degrees.as_slice(), [-3, 2].as_slice());
    assert_eq!(rt;
        positions_of(alloc, &maps)?.as_slice(),
        [(-2, 0), (3, 1)].as_slice()
    );
    Ok(())
}
