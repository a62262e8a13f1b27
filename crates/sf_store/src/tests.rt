ghost use Rattle.std.specs.Prelude.{◌≡◌, ◌<◌, ◌≤◌, ◌≤ℤ◌, [], ◌∷◌, length, IfOk, pos};
ghost use Rattle.sf_algebra.specs.Bounds.{HasSmallSize};
ghost use Rattle.sf_algebra.specs.Monomials.{from_exponents};
ghost use Rattle.sf_algebra.specs.Rings.{plain};
ghost use Rattle.sf_algebra.specs.Vectors.{IsVector};
ghost use Rattle.sf_matrix.specs.Tables.{GREATEST_REDUCED_DEGREE};

use crate::{PlainBases, Store};
use sf_field::{Modulus, OutOfMemory};
use sf_matrix::{BaseFault, Bases, Free, List, Matrix, Vector};
use sf_mono::Mono;
use sf_pairs::{FirstStrategy, LastStrategy, Strategy};
use std::alloc::Global;
use std::cell::Cell;
use std::rc::Rc;
use std::test::Fail;

/// Takes the last pair, and counts how often it was asked.
#[derive(Drop)]
struct Counting {
    calls: Rc<Cell<u32>>,
}

impl Strategy for Counting {
    fn choose(&mut self, count: usize) -> usize {
        self.calls.set(self.calls.get().saturating_add(1));
        count - 1
    }

    fn told(&mut self, _zero: bool) {}
}

/// No rows modulo 101 yet, over a generator of degree 0.
fn no_rows(alloc: Global) -> Result<Matrix, Fail>
    ensures { IfOk result (λ m. m ≡ record { ring = plain 101; target = pos 0 ∷ []; rows = [] }) }
{
    let modulus = Modulus::from_number(101).ok_or("a modulus")?;
    let degrees = List::from_slice(alloc, [0].as_slice())?;
    Ok(Matrix::new(alloc, modulus, Free { degrees }))
}

/// The monomial of x and y with these exponents.
fn monomial(x: u16, y: u16) -> Result<Mono, Fail>
    ensures { IfOk result (λ a. a ≡ from_exponents (x ∷ y ∷ 0 ∷ 0 ∷ 0 ∷ 0 ∷ [])) }
{
    Ok(Mono::from_exponents([x, y, 0, 0, 0, 0]).ok_or("a monomial")?)
}

/// The rows x^2 and x y + y^2, of degree 2.
fn quadrics(alloc: Global) -> Result<Matrix, Fail>
    ensures size { IfOk result HasSmallSize }
    ensures row { IfOk result (λ m. 0 < length m.rows) }
    ensures ring { IfOk result (λ m. m.ring ≡ plain 101) }
    ensures target { IfOk result (λ m. m.target ≡ pos 0 ∷ []) }
{
    let mut square = Vector::zero(alloc, 2);
    square.push(0, monomial(2, 0)?, 1)?;
    let mut sum = Vector::zero(alloc, 2);
    sum.push(0, monomial(1, 1)?, 1)?;
    sum.push(0, monomial(0, 2)?, 1)?;
    let mut rows = no_rows(alloc)?;
    rows.push_row(square)?;
    rows.push_row(sum)?;
    Ok(rows)
}

/// The rows x and y, of degree 1.
fn variables(alloc: Global) -> Result<Matrix, Fail>
    ensures size { IfOk result HasSmallSize }
    ensures row { IfOk result (λ m. 0 < length m.rows) }
{
    let mut x = Vector::zero(alloc, 1);
    x.push(0, monomial(1, 0)?, 1)?;
    let mut y = Vector::zero(alloc, 1);
    y.push(0, monomial(0, 1)?, 1)?;
    let mut rows = no_rows(alloc)?;
    rows.push_row(x)?;
    rows.push_row(y)?;
    Ok(rows)
}

/// The vector x, of degree 1.
fn x(alloc: Global) -> Result<Vector, Fail>
    ensures vector { IfOk result (IsVector (plain 101) (pos 0 ∷ [])) }
    ensures room { IfOk result (λ v. v.degree ≤ℤ GREATEST_REDUCED_DEGREE) }
{
    let mut v = Vector::zero(alloc, 1);
    v.push(0, monomial(1, 0)?, 1)?;
    Ok(v)
}

/// The vector x y^3, of degree 4.
fn quartic(alloc: Global) -> Result<Vector, Fail>
    ensures vector { IfOk result (IsVector (plain 101) (pos 0 ∷ [])) }
    ensures room { IfOk result (λ v. v.degree ≤ℤ GREATEST_REDUCED_DEGREE) }
{
    let mut v = Vector::zero(alloc, 4);
    v.push(0, monomial(1, 3)?, 1)?;
    Ok(v)
}

/// A term of a vector: its position, the exponents of x and y, and its coefficient.
type Entry = (u64, u16, u16, u32);

fn entries_of(alloc: Global, v: &Vector) -> Result<Vec<Entry>, OutOfMemory> {
    let mut entries = Vec::new(alloc);
    for term in v.terms() {
        let a = term.monomial;
        entries.push((
            term.position,
            a.exponent(0),
            a.exponent(1),
            term.coefficient,
        ))?;
    }
    Ok(entries)
}

/// The terms of what is left of a vector over the quadrics, and those of its coefficients.
fn reduced<B: Bases>(
    alloc: Global,
    bases: &mut B,
    v: &Vector,
) -> Result<(Vec<Entry>, Vec<Entry>), Fail>
    requires vector { IsVector (plain 101) (pos 0 ∷ []) v.now }
    requires room { v.now.degree ≤ℤ GREATEST_REDUCED_DEGREE }
{
    let m = quadrics(alloc)?;
    let Ok(k) = bases.open(alloc, &m) else {
        return Err("a fault")?;
    };
    let (rest, coefficients) = bases.reduce(alloc, k, v)?;
    Ok((entries_of(alloc, &rest)?, entries_of(alloc, &coefficients)?))
}

#[test]
fn reduces_by_two_quadrics(rt: HostRuntime) -> Result<(), Fail> {
    let alloc = rt.alloc();
    let strategy: Box<dyn Strategy> = Box::new(alloc, FirstStrategy)?;
    let mut store = Store::new(alloc, 3, strategy);
    let mut plain = PlainBases::new(alloc, 3);
    let none: [Entry; 0] = [];
    let left = [(0, 1, 0, 1)];
    let lift = [(0, 0, 2, 100), (1, 1, 1, 1)];
    for (rest, coefficients) in [
        reduced(alloc, &mut store, &x(alloc)?)?,
        reduced(alloc, &mut plain, &x(alloc)?)?,
    ] {
        assert_eq!(rt; rest.as_slice(), left.as_slice());
        assert_eq!(rt; coefficients.as_slice(), none.as_slice());
    }
    for (rest, coefficients) in [
        reduced(alloc, &mut store, &quartic(alloc)?)?,
        reduced(alloc, &mut plain, &quartic(alloc)?)?,
    ] {
        assert_eq!(rt; rest.as_slice(), none.as_slice());
        assert_eq!(rt; coefficients.as_slice(), lift.as_slice());
    }
    assert_eq!(rt; store.entries(), 1);
    Ok(())
}

#[test]
fn asks_once_for_each_matrix(rt: HostRuntime) -> Result<(), Fail> {
    let alloc = rt.alloc();
    let calls = Rc::new(alloc, Cell::new(0))?;
    let counting = Counting {
        calls: calls.clone()?,
    };
    let strategy: Box<dyn Strategy> = Box::new(alloc, counting)?;
    let mut store = Store::new(alloc, 40, strategy);
    store.set_limit(2);
    let large = Err(BaseFault::Large { rows: 2, cols: 1 });
    assert_eq!(rt; store.open(alloc, &quadrics(alloc)?), large);
    assert_eq!(rt; store.open(alloc, &variables(alloc)?), Ok(1));
    let asked = calls.get();
    assert!(rt; 0 < asked);
    assert_eq!(rt; store.open(alloc, &quadrics(alloc)?), large);
    assert_eq!(rt; store.open(alloc, &variables(alloc)?), Ok(1));
    assert_eq!(rt; calls.get(), asked);
    assert_eq!(rt; store.entries(), 2);
    assert_eq!(rt; store.ticks(), 2);
    assert_eq!(rt; store.limit(), 2);
    Ok(())
}

/// Whether two tables number a matrix alike, and give the same of it.
fn agree(alloc: Global, store: &mut Store, plain: &mut PlainBases, m: &Matrix) -> Result<bool, Fail>
    requires size { HasSmallSize m.now }
    requires row { 0 < length m.now.rows }
{
    let k = store.open(alloc, m).map_err(|_fault| "a fault")?;
    let j = plain.open(alloc, m).map_err(|_fault| "a fault")?;
    let (first, second) = (store.at(k), plain.at(j));
    Ok(
        k == j
            && first.basis == second.basis
            && first.coefficients == second.coefficients
            && first.syzygies == second.syzygies,
    )
}

#[test]
fn gives_the_same_graphs(rt: HostRuntime) -> Result<(), Fail> {
    let alloc = rt.alloc();
    let strategy: Box<dyn Strategy> = Box::new(alloc, LastStrategy)?;
    let mut store = Store::new(alloc, 60, strategy);
    let mut plain = PlainBases::new(alloc, 60);
    assert!(rt; agree(alloc, &mut store, &mut plain, &quadrics(alloc)?)?);
    assert!(rt; agree(alloc, &mut store, &mut plain, &variables(alloc)?)?);
    Ok(())
}
