ghost use Rattle.std.specs.Prelude.{◌≡◌, ◌+◌, ◌<◌, ◌≤◌, Ok, Err, IfOk, IfSome, MatchResult};
ghost use Rattle.std.specs.List.{AllByRecursion};
ghost use Rattle.sf_algebra.specs.Bounds.{HasSmallSize};
ghost use Rattle.sf_algebra.specs.Matrices.{IsMatrix};
ghost use Rattle.sf_algebra.specs.Vectors.{IsVector};
ghost use Rattle.sf_groebner.specs.MinimalGenerators.{matrix_of};
ghost use Rattle.sf_groebner.specs.Small.{IsSmall};
ghost use Rattle.sf_groebner.specs.Spans.{graph_degrees};
ghost use Rattle.sf_buchberger.specs.GraphBases.{IsGraph, IsFault, IsTicked};
ghost use Rattle.sf_buchberger.specs.Growth.{IsGrown};
ghost use Rattle.sf_buchberger.specs.WholeBases.{IsWholeBasis};

use crate::counted::counted_rows;
use crate::graph_rows::{graph_degrees, graph_rows};
use crate::growth::grown_rows;
use crate::parts::parts;
use crate::sorting::sorted_rows;
use crate::tails::reduced_rows;
use crate::whole::GraphBasis;
use sf_field::OutOfMemory;
use sf_matrix::{BaseFault, Graph, Matrix, Vector, has_small_size};
use sf_pairs::{FirstStrategy, Strategy, Ticks};
use sf_reduce::Leads;
use std::alloc::Global;

/// What the reduced basis of the graph of `m` gives, whatever the strategy.
///
/// The fault is `Large` exactly where the matrix isn't small for the limit, which is from 1 to 60. There is one more tick,
/// unless memory is wanting.
pub fn graph_basis(
    alloc: Global,
    m: &Matrix,
    limit: u32,
    strategy: &mut Box<dyn Strategy>,
    ticks: &mut Ticks,
) -> Result<Graph, BaseFault>
    requires least { 1 ≤ limit }
    requires greatest { limit ≤ 60 }
    requires ticks { ticks.old < u64.MAX }
    ensures graph { MatchResult result (λ g. IsGraph limit m.now g.basis g.coefficients g.syzygies)
        (λ fault. IsFault limit m.now fault) }
    ensures ticks { MatchResult result (λ g. ticks.new ≡ ticks.old + 1) (λ fault. IsTicked fault ticks.old ticks.new) }
{
    graph_alone(whole_basis(alloc, m, limit, strategy, ticks))
}

/// The same by a strategy of its own, which takes the first pair. It needs no box.
pub fn graph_plain(
    alloc: Global,
    m: &Matrix,
    limit: u32,
    ticks: &mut Ticks,
) -> Result<Graph, BaseFault>
    requires least { 1 ≤ limit }
    requires greatest { limit ≤ 60 }
    requires ticks { ticks.old < u64.MAX }
    ensures graph { MatchResult result (λ g. IsGraph limit m.now g.basis g.coefficients g.syzygies)
        (λ fault. IsFault limit m.now fault) }
    ensures ticks { MatchResult result (λ g. ticks.new ≡ ticks.old + 1) (λ fault. IsTicked fault ticks.old ticks.new) }
{
    let basis = plain_basis(alloc, m, limit, &mut FirstStrategy);
    graph_alone(ticked(basis, ticks))
}

/// What a basis gives, without its elements.
fn graph_alone(basis: Result<GraphBasis, BaseFault>) -> Result<Graph, BaseFault>
    ensures alone { MatchResult basis (λ b. result ≡ Ok b.graph) (λ fault. result ≡ Err fault) }
{
    match basis {
        Ok(GraphBasis { graph, .. }) => Ok(graph),
        Err(fault) => Err(fault),
    }
}

/// The reduced basis of the graph of `m`, with what it gives, whatever the strategy.
///
/// The fault is `Large` exactly where the matrix isn't small for the limit, which is from 1 to 60. There is one more tick,
/// unless memory is wanting.
pub fn whole_basis<S: Strategy>(
    alloc: Global,
    m: &Matrix,
    limit: u32,
    strategy: &mut S,
    ticks: &mut Ticks,
) -> Result<GraphBasis, BaseFault>
    requires least { 1 ≤ limit }
    requires greatest { limit ≤ 60 }
    requires ticks { ticks.old < u64.MAX }
    ensures basis { MatchResult result (IsWholeBasis limit m.now) (IsFault limit m.now) }
    ensures ticks { MatchResult result (λ _. ticks.new ≡ ticks.old + 1) (λ fault. IsTicked fault ticks.old ticks.new) }
{
    let basis = decided_basis(alloc, m, limit, strategy);
    ticked(basis, ticks)
}

/// What there is of a basis, after a tick, unless memory is wanting.
fn ticked(basis: Result<GraphBasis, BaseFault>, ticks: &mut Ticks) -> Result<GraphBasis, BaseFault>
    requires ticks { ticks.old < u64.MAX }
    ensures same { result ≡ basis }
    ensures ticks { MatchResult result (λ _. ticks.new ≡ ticks.old + 1) (λ fault. IsTicked fault ticks.old ticks.new) }
{
    if !matches!(basis, Err(BaseFault::Memory)) {
        ticks.tick();
    }
    basis
}

/// The basis by linear algebra in each degree, as far as that goes, and else by a loop over single pairs.
fn decided_basis<S: Strategy>(
    alloc: Global,
    m: &Matrix,
    limit: u32,
    strategy: &mut S,
) -> Result<GraphBasis, BaseFault>
    requires limit { limit ≤ 60 }
    ensures basis { MatchResult result (IsWholeBasis limit m.now) (IsFault limit m.now) }
{
    if has_small_size(m) {
        if let Some(basis) = counted_basis(alloc, m, limit, strategy)? {
            return Ok(basis);
        }
    }
    plain_basis(alloc, m, limit, strategy)
}

/// The basis by linear algebra in each degree. `None` says nothing.
fn counted_basis<S: Strategy>(
    alloc: Global,
    m: &Matrix,
    limit: u32,
    strategy: &mut S,
) -> Result<Option<GraphBasis>, OutOfMemory>
    requires size { HasSmallSize m.now }
    requires limit { limit ≤ 60 }
    ensures basis { IfOk result (λ found. IfSome found (IsWholeBasis limit m.now)) }
{
    let generators = graph_rows(alloc, m)?;
    match counted_rows(alloc, m, &generators, limit, strategy)? {
        None => Ok(None),
        Some(rows) => {
            let basis = basis_of(alloc, m, limit, rows)?;
            Ok(Some(basis))
        }
    }
}

/// The basis by a loop over single pairs.
fn plain_basis<S: Strategy>(
    alloc: Global,
    m: &Matrix,
    limit: u32,
    strategy: &mut S,
) -> Result<GraphBasis, BaseFault>
    requires limit { limit ≤ 60 }
    ensures basis { MatchResult result (IsWholeBasis limit m.now) (IsFault limit m.now) }
{
    let large = BaseFault::Large {
        rows: m.rows() as u64,
        cols: m.cols() as u64,
    };
    if !has_small_size(m) {
        return Err(large);
    }
    let generators = graph_rows(alloc, m)?;
    let rows = grown_rows(alloc, m, &generators, limit, strategy)?;
    Ok(finished_basis(alloc, m, limit, &rows)?)
}

/// The basis of which the rows of a Gröbner basis of the graph are the start: they are reduced, sorted and cut.
fn finished_basis(
    alloc: Global,
    m: &Matrix,
    limit: u32,
    rows: &Matrix,
) -> Result<GraphBasis, OutOfMemory>
    requires matrix { IsMatrix m.now }
    requires size { HasSmallSize m.now }
    requires limit { limit ≤ 60 }
    requires grown { IsGrown limit m.now rows.now }
    ensures basis { IfOk result (IsWholeBasis limit m.now) }
{
    m.modulus().facts();
    let elements = sorted_rows(alloc, reduced_rows(alloc, rows)?)?;
    cut_basis(alloc, m, limit, elements)
}

/// The reduced basis with these elements, and its leads and what it gives.
fn cut_basis(
    alloc: Global,
    m: &Matrix,
    limit: u32,
    elements: Vec<Vector>,
) -> Result<GraphBasis, OutOfMemory>
    requires small { IsSmall limit m.now elements.items }
    ensures basis { IfOk result (IsWholeBasis limit m.now) }
{
    let elements = graph_matrix(alloc, m, elements)?;
    basis_of(alloc, m, limit, elements)
}

/// The same where the elements are the rows of a matrix.
fn basis_of(
    alloc: Global,
    m: &Matrix,
    limit: u32,
    elements: Matrix,
) -> Result<GraphBasis, OutOfMemory>
    requires ring { elements.ring ≡ m.now.ring }
    requires target { elements.target ≡ graph_degrees m.now }
    requires small { IsSmall limit m.now elements.rows }
    ensures basis { IfOk result (IsWholeBasis limit m.now) }
{
    let graph = parts(alloc, m, &elements)?;
    let leads = Leads::of(alloc, &elements)?;
    Ok(GraphBasis {
        elements,
        leads,
        graph,
    })
}

/// The matrix with these rows over the graph's free module.
fn graph_matrix(alloc: Global, m: &Matrix, rows: Vec<Vector>) -> Result<Matrix, OutOfMemory>
    requires vectors { AllByRecursion (IsVector m.now.ring (graph_degrees m.now)) rows.items }
    ensures matrix { IfOk result (λ g. g ≡ matrix_of m.now.ring (graph_degrees m.now) rows.items) }
{
    let mut matrix = Matrix::new(alloc, m.modulus(), graph_degrees(alloc, m)?);
    for row in rows {
        matrix.push_row(row)?;
    }
    Ok(matrix)
}
