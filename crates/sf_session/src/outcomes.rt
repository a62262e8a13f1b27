ghost use Rattle.std.specs.Prelude.{◌≡◌, ◌≤ℤ◌, [], ◌∷◌, map, slice_get, Result, IfOk};
ghost use Rattle.std.specs.List.{AllByRecursion};
ghost use Rattle.sf_algebra.specs.Matrices.{row_degrees};
ghost use Rattle.sf_algebra.specs.Vectors.{IsVector};
ghost use Rattle.sf_groebner.specs.MinimalGenerators.{matrix_of};
ghost use Rattle.sf_groebner.specs.Spans.{IsCoefficients};
ghost use Rattle.sf_matrix.specs.Meets.{Meets};
ghost use Rattle.sf_matrix.specs.Tables.{GREATEST_REDUCED_DEGREE};
ghost use Rattle.sf_module.specs.ModulePlans.{IsWellDefined};
ghost use Rattle.sf_object.specs.Complexes.{HasSquareRoom, IsChain, junctions};
ghost use Rattle.sf_object.specs.Faults.{HasImageRoom, IsBetween};
ghost use Rattle.sf_object.specs.Shelves.{GrewOver, HasSteps, steps_up_to};
ghost use Rattle.sf_object.specs.declared.map.Map.{Map};
ghost use Rattle.sf_script.specs.declared.checked.Checked.TheVariants as checks;
ghost use Rattle.sf_session.specs.Outcomes.{shown};
ghost use Rattle.sf_session.specs.Settling.{HasCallRoom, Settles};
ghost use Rattle.sf_session.specs.Tasks.{has_list, map_of, query_plan};

use crate::looks::{is_in_span, lift_of};
use crate::outcome::Outcome;
use sf_field::OutOfMemory;
use sf_genmor::{Presentation, basis_of, syzygies_of};
use sf_matrix::{BaseFault, Bases, Copied, List, Matrix, Name, Vector};
use sf_module::{cokernel, image, kernel};
use sf_object::{Complex, Map, Presented, Steps, complex_fault, map_fault};
use sf_reply::Reply;
use sf_script::{Checked, CheckedQuery, LineFault, Named};
use std::alloc::Global;

/// Whether a line has a working list.
pub fn has_list(checked: &Checked) -> bool
    ensures { result ≡ has_list checked.now }
{
    match checked {
        Checked::Maps(..)
        | Checked::Chains(..)
        | Checked::Lets(..)
        | Checked::Asks(_)
        | Checked::Basis(_)
        | Checked::Syz(_)
        | Checked::Member(..)
        | Checked::Lift(..)
        | Checked::Resolves(..) => true,
        Checked::Opens
        | Checked::Enters(_)
        | Checked::Limits(_)
        | Checked::Defines(..)
        | Checked::Shows(_) => false,
    }
}

/// What comes of a line that no test refused. Steps of resolutions are taken from a shelf that grew over the bases.
pub fn outcome_of<S: Steps, B: Bases>(
    alloc: Global,
    checked: Checked,
    shelf: &mut S,
    bases: &mut B,
) -> Result<Outcome, BaseFault>
    requires room { HasCallRoom checked }
    requires grew { GrewOver (S.shelf shelf.old) (B.table bases.old) }
    ensures settles { Settles checked (B.table bases.old) result (B.table bases.new) }
    ensures grew { GrewOver (S.shelf shelf.new) (B.table bases.new) }
{
    match checked {
        Checked::Opens => Ok(Outcome::Opens),
        Checked::Enters(ring) => Ok(Outcome::Enters(ring)),
        Checked::Limits(limit) => Ok(Outcome::Limits(limit)),
        Checked::Defines(name, module) => Ok(Outcome::Defines(name, Named::Module(module))),
        Checked::Maps(name, map) => map_outcome(alloc, name, map, bases),
        Checked::Chains(name, complex) => complex_outcome(alloc, name, complex, bases),
        Checked::Lets(name, query) => let_outcome(alloc, name, query, bases),
        Checked::Asks(query) => asked_outcome(alloc, query, bases),
        Checked::Shows(what) => Ok(Outcome::Tells(shown(alloc, what)?)),
        Checked::Basis(module) => basis_outcome(alloc, module, bases),
        Checked::Syz(module) => syzygies_outcome(alloc, module, bases),
        Checked::Member(module, vector) => member_outcome(alloc, module, vector, bases),
        Checked::Lift(module, vector) => lift_outcome(alloc, module, vector, bases),
        Checked::Resolves(module, k) => resolution_outcome(alloc, module, k, shelf, bases),
    }
}

/// What `show` tells of a module, a map or a complex.
fn shown(alloc: Global, what: Named) -> Result<Reply, OutOfMemory>
    ensures { IfOk result (λ reply. reply ≡ shown what) }
{
    match what {
        Named::Module(module) => Ok(Reply::ShowModule {
            relations: module.into_relations(),
        }),
        Named::Mapping(map) => Ok(Reply::ShowMap { matrix: map.matrix }),
        Named::Chain(complex) => Ok(Reply::Differentials {
            steps: matrices(alloc, complex.maps.as_slice())?,
        }),
    }
}

/// The matrices of maps, in order.
fn matrices(alloc: Global, maps: &[Map]) -> Result<List<Matrix>, OutOfMemory>
    ensures { IfOk result (λ ms. ms ≡ map (λ (f : Map). f.matrix) maps.now) }
{
    let mut found = List::new(alloc);
    for map in maps {
        found.push(map.matrix.copy(alloc)?)?;
    }
    Ok(found)
}

#[tactic(auto, using(crate::proofs::Settling::settled, crate::proofs::Settling::failed))]
fn map_outcome<B: Bases>(
    alloc: Global,
    name: Name,
    map: Map,
    bases: &mut B,
) -> Result<Outcome, BaseFault>
    requires between { IsBetween map }
    requires room { HasImageRoom map }
    ensures { Settles (checks.Maps name map) (B.table bases.old) result (B.table bases.new) }
{
    match map_fault(alloc, &map, bases)? {
        None => Ok(Outcome::Defines(name, Named::Mapping(map))),
        Some(relation) => Ok(Outcome::Refuses(LineFault::NotMap {
            relation: relation as u64 + 1,
        })),
    }
}

#[tactic(auto, using(crate::proofs::Settling::settled, crate::proofs::Settling::failed))]
fn complex_outcome<B: Bases>(
    alloc: Global,
    name: Name,
    complex: Complex,
    bases: &mut B,
) -> Result<Outcome, BaseFault>
    requires chain { IsChain complex }
    requires room { AllByRecursion HasSquareRoom (junctions complex.maps) }
    ensures { Settles (checks.Chains name complex) (B.table bases.old) result (B.table bases.new) }
{
    match complex_fault(alloc, &complex, bases)? {
        None => Ok(Outcome::Defines(name, Named::Chain(complex))),
        Some(place) => Ok(Outcome::Refuses(LineFault::NotComplex {
            place: place as u64,
        })),
    }
}

/// The module for which a query asks.
fn presented<B: Bases>(
    alloc: Global,
    query: &CheckedQuery,
    bases: &mut B,
) -> Result<Presentation, BaseFault>
    requires map { IsWellDefined (map_of query.now) }
    ensures { Meets (B.table bases.old) (query_plan query.now) result (B.table bases.new) }
{
    match query {
        CheckedQuery::Kernel(map) => kernel(alloc, map, bases),
        CheckedQuery::Image(map) => image(alloc, map, bases),
        CheckedQuery::Coker(map) => cokernel(alloc, map, bases),
    }
}

#[tactic(auto, using(crate::proofs::Settling::settled, crate::proofs::Settling::failed))]
fn let_outcome<B: Bases>(
    alloc: Global,
    name: Name,
    query: CheckedQuery,
    bases: &mut B,
) -> Result<Outcome, BaseFault>
    requires map { IsWellDefined (map_of query) }
    ensures { Settles (checks.Lets name query) (B.table bases.old) result (B.table bases.new) }
{
    let found = presented(alloc, &query, bases)?;
    Ok(Outcome::Defines(name, Named::Module(Presented::new(found.rels))))
}

#[tactic(auto, using(crate::proofs::Settling::settled, crate::proofs::Settling::failed))]
fn asked_outcome<B: Bases>(
    alloc: Global,
    query: CheckedQuery,
    bases: &mut B,
) -> Result<Outcome, BaseFault>
    requires map { IsWellDefined (map_of query) }
    ensures { Settles (checks.Asks query) (B.table bases.old) result (B.table bases.new) }
{
    let found = presented(alloc, &query, bases)?;
    Ok(Outcome::Tells(Reply::Pair {
        gens: found.gens,
        rels: found.rels,
    }))
}

#[tactic(auto, using(crate::proofs::Settling::settled, crate::proofs::Settling::failed))]
fn basis_outcome<B: Bases>(
    alloc: Global,
    given: Presented,
    bases: &mut B,
) -> Result<Outcome, BaseFault>
    ensures { Settles (checks.Basis given) (B.table bases.old) result (B.table bases.new) }
{
    let matrix = basis_of(alloc, given.relations(), bases)?;
    Ok(Outcome::Tells(Reply::Basis { matrix }))
}

#[tactic(auto, using(crate::proofs::Settling::settled, crate::proofs::Settling::failed))]
fn syzygies_outcome<B: Bases>(
    alloc: Global,
    given: Presented,
    bases: &mut B,
) -> Result<Outcome, BaseFault>
    ensures { Settles (checks.Syz given) (B.table bases.old) result (B.table bases.new) }
{
    let matrix = syzygies_of(alloc, given.relations(), bases)?;
    Ok(Outcome::Tells(Reply::Syz { matrix }))
}

#[tactic(auto, using(crate::proofs::Settling::settled, crate::proofs::Settling::failed))]
fn member_outcome<B: Bases>(
    alloc: Global,
    given: Presented,
    vector: Vector,
    bases: &mut B,
) -> Result<Outcome, BaseFault>
    requires vector { IsVector given.ring given.target vector }
    requires room { vector.degree ≤ℤ GREATEST_REDUCED_DEGREE }
    ensures { Settles (checks.Member given vector) (B.table bases.old) result (B.table bases.new) }
{
    let yes = is_in_span(alloc, given.relations(), &vector, bases)?;
    Ok(Outcome::Tells(Reply::Member { yes }))
}

#[tactic(auto, using(crate::proofs::Settling::settled, crate::proofs::Settling::failed))]
fn lift_outcome<B: Bases>(
    alloc: Global,
    given: Presented,
    vector: Vector,
    bases: &mut B,
) -> Result<Outcome, BaseFault>
    requires vector { IsVector given.ring given.target vector }
    requires room { vector.degree ≤ℤ GREATEST_REDUCED_DEGREE }
    ensures { Settles (checks.Lift given vector) (B.table bases.old) result (B.table bases.new) }
{
    let relations = given.relations();
    match lift_of(alloc, relations, &vector, bases)? {
        None => Ok(Outcome::Refuses(LineFault::NotInSpan)),
        Some(coefficients) => Ok(Outcome::Tells(Reply::Lift {
            matrix: one_row(alloc, relations, coefficients)?,
        })),
    }
}

/// The steps 1 to k of the resolution of a module, as far as they aren't on the shelf yet made by need.
fn resolution_outcome<S: Steps, B: Bases>(
    alloc: Global,
    given: Presented,
    k: u32,
    shelf: &mut S,
    bases: &mut B,
) -> Result<Outcome, BaseFault>
    requires grew { GrewOver (S.shelf shelf.old) (B.table bases.old) }
    ensures settles { Settles (checks.Resolves given k) (B.table bases.old) result (B.table bases.new) }
    ensures grew { GrewOver (S.shelf shelf.new) (B.table bases.new) }
{
    let id = shelf.open(alloc, &given)?;
    shelf.ensure(alloc, id, k as usize, bases)?;
    let steps = first_steps(alloc, shelf, id, k as usize)?;
    Ok(Outcome::Tells(Reply::Differentials { steps }))
}

/// The steps 1 to k of module number `id` of a shelf.
fn first_steps<S: Steps>(
    alloc: Global,
    shelf: &S,
    id: usize,
    k: usize,
) -> Result<List<Matrix>, OutOfMemory>
    requires there { HasSteps (S.shelf shelf.now) id k }
    ensures { IfOk result (λ steps. steps ≡ steps_up_to k (slice_get (S.shelf shelf.now) id)) }
{
    let mut steps = List::new(alloc);
    for before in 0..k {
        steps.push(shelf.step(id, before + 1).copy(alloc)?)?;
    }
    Ok(steps)
}

/// The matrix with one row, over the free module of the degrees of these relations.
fn one_row(alloc: Global, relations: &Matrix, row: Vector) -> Result<Matrix, OutOfMemory>
    requires { IsCoefficients relations.now row }
    ensures { IfOk result (λ m. m ≡ matrix_of relations.now.ring (row_degrees relations.now) (row ∷ [])) }
{
    let mut matrix = Matrix::new(alloc, relations.modulus(), relations.row_module(alloc)?);
    matrix.push_row(row)?;
    Ok(matrix)
}
