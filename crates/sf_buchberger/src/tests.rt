ghost use Rattle.std.specs.Prelude.{◌≡◌, ◌≤◌, [], ◌∷◌, IfOk, pos};
ghost use Rattle.sf_algebra.specs.Monomials.{from_exponents};
ghost use Rattle.sf_algebra.specs.Rings.{plain};

use crate::basis::{graph_basis, graph_plain};
use crate::counted::counted_rows;
use crate::graph_rows::graph_rows;
use sf_field::{Modulus, OutOfMemory};
use sf_matrix::{BaseFault, Free, Graph, List, Matrix, Vector, has_small_size};
use sf_mono::Mono;
use sf_pairs::{FirstStrategy, Strategy, Ticks};
use std::alloc::Global;
use std::test::Fail;

/// No rows modulo 101 yet, over a generator of degree 0.
fn no_rows(alloc: Global) -> Result<Matrix, Fail>
    ensures { IfOk result (λ m. m ≡ record { ring = plain 101; target = pos 0 ∷ []; rows = [] }) }
{
    let modulus = Modulus::from_number(101).ok_or("a modulus")?;
    let degrees = List::from_slice(alloc, [0].as_slice())?;
    Ok(Matrix::new(alloc, modulus, Free { degrees }))
}

/// The monomial of x and y with these exponents.
fn monomial(x: u16, y: u16) -> Result<Mono, Fail>
    ensures { IfOk result (λ a. a ≡ from_exponents (x ∷ y ∷ 0 ∷ 0 ∷ 0 ∷ 0 ∷ [])) }
{
    Ok(Mono::from_exponents([x, y, 0, 0, 0, 0]).ok_or("a monomial")?)
}

/// The rows x^2 and x y + y^2, of degree 2.
fn quadrics(alloc: Global) -> Result<Matrix, Fail> {
    let mut square = Vector::zero(alloc, 2);
    square.push(0, monomial(2, 0)?, 1)?;
    let mut sum = Vector::zero(alloc, 2);
    sum.push(0, monomial(1, 1)?, 1)?;
    sum.push(0, monomial(0, 2)?, 1)?;
    let mut rows = no_rows(alloc)?;
    rows.push_row(square)?;
    rows.push_row(sum)?;
    Ok(rows)
}

/// The rows x^2 + y^2 and x^2 + x y, of degree 2: the lead of their difference is a term of the second one.
fn overlapping(alloc: Global) -> Result<Matrix, Fail> {
    let mut first = Vector::zero(alloc, 2);
    first.push(0, monomial(2, 0)?, 1)?;
    first.push(0, monomial(0, 2)?, 1)?;
    let mut second = Vector::zero(alloc, 2);
    second.push(0, monomial(2, 0)?, 1)?;
    second.push(0, monomial(1, 1)?, 1)?;
    let mut rows = no_rows(alloc)?;
    rows.push_row(first)?;
    rows.push_row(second)?;
    Ok(rows)
}

/// The rows x and y, of degree 1.
fn variables(alloc: Global) -> Result<Matrix, Fail> {
    let mut x = Vector::zero(alloc, 1);
    x.push(0, monomial(1, 0)?, 1)?;
    let mut y = Vector::zero(alloc, 1);
    y.push(0, monomial(0, 1)?, 1)?;
    let mut rows = no_rows(alloc)?;
    rows.push_row(x)?;
    rows.push_row(y)?;
    Ok(rows)
}

/// A term of a matrix: its row and that row's degree, its column, the exponents of x and y, and its coefficient.
type Entry = (usize, i32, u64, u16, u16, u32);

fn entries_of(alloc: Global, matrix: &Matrix) -> Result<Vec<Entry>, OutOfMemory> {
    let mut entries = Vec::new(alloc);
    for i in 0..matrix.rows() {
        let row = matrix.row(i);
        let degree = row.degree();
        for term in row.terms() {
            let a = term.monomial;
            entries.push((
                i,
                degree,
                term.position,
                a.exponent(0),
                a.exponent(1),
                term.coefficient,
            ))?;
        }
    }
    Ok(entries)
}

/// What a matrix gives after one tick.
fn basis_of(alloc: Global, m: &Matrix, limit: u32) -> Result<Result<Graph, BaseFault>, Fail>
    requires least { 1 ≤ limit }
    requires greatest { limit ≤ 60 }
{
    let mut strategy: Box<dyn Strategy> = Box::new(alloc, FirstStrategy)?;
    let mut ticks = Ticks::new();
    let graph = graph_basis(alloc, m, limit, &mut strategy, &mut ticks);
    if ticks.count() != 1 {
        return Err("the ticks")?;
    }
    Ok(graph)
}

#[test]
fn two_quadrics_have_a_cube(rt: HostRuntime) -> Result<(), Fail> {
    let m = quadrics(rt.alloc())?;
    let graph = basis_of(rt.alloc(), &m, 3)?.map_err(|_fault| "a fault")?;
    let basis = entries_of(rt.alloc(), &graph.basis)?;
    let expected = [
        (0, 2, 0, 2, 0, 1),
        (1, 2, 0, 1, 1, 1),
        (1, 2, 0, 0, 2, 1),
        (2, 3, 0, 0, 3, 1),
    ];
    assert_eq!(rt; basis.as_slice(), expected.as_slice());
    let fault = basis_of(rt.alloc(), &m, 2)?.err();
    assert_eq!(rt; fault, Some(BaseFault::Large { rows: 2, cols: 1 }));
    Ok(())
}

#[test]
fn variables_have_one_syzygy(rt: HostRuntime) -> Result<(), Fail> {
    let m = variables(rt.alloc())?;
    let graph = basis_of(rt.alloc(), &m, 1)?.map_err(|_fault| "a fault")?;
    let coefficients = entries_of(rt.alloc(), &graph.coefficients)?;
    let units = [(0, 1, 0, 0, 0, 1), (1, 1, 1, 0, 0, 1)];
    assert_eq!(rt; coefficients.as_slice(), units.as_slice());
    let syzygies = entries_of(rt.alloc(), &graph.syzygies)?;
    let syzygy = [(0, 2, 0, 0, 1, 1), (0, 2, 1, 1, 0, 100)];
    assert_eq!(rt; syzygies.as_slice(), syzygy.as_slice());
    Ok(())
}

#[test]
fn both_ways_give_one_basis(rt: HostRuntime) -> Result<(), Fail> {
    let m = quadrics(rt.alloc())?;
    let by_degrees = basis_of(rt.alloc(), &m, 3)?.map_err(|_fault| "a fault")?;
    let mut ticks = Ticks::new();
    let by_pairs = graph_plain(rt.alloc(), &m, 3, &mut ticks).map_err(|_fault| "a fault")?;
    assert_eq!(rt; by_degrees.basis, by_pairs.basis);
    assert_eq!(rt; by_degrees.coefficients, by_pairs.coefficients);
    assert_eq!(rt; by_degrees.syzygies, by_pairs.syzygies);
    Ok(())
}

#[test]
fn a_basis_is_found_by_degrees(rt: HostRuntime) -> Result<(), Fail> {
    let alloc = rt.alloc();
    let m = overlapping(alloc)?;
    if !has_small_size(&m) {
        return Err("the size")?;
    }
    let generators = graph_rows(alloc, &m)?;
    let found = counted_rows(alloc, &m, &generators, 4, &mut FirstStrategy)?;
    let mut ticks = Ticks::new();
    let by_pairs = graph_plain(alloc, &m, 4, &mut ticks).map_err(|_fault| "a fault")?;
    let elements = by_pairs.basis.rows() + by_pairs.syzygies.rows();
    assert_eq!(rt; found.map(|rows| rows.rows()), Some(elements));
    Ok(())
}
