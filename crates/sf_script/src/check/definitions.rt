ghost use Rattle.std.specs.Prelude.{◌≡◌, IfOk, IsTrue, Ok, Err};
ghost use Rattle.std.specs.List.{list_all};
ghost use Rattle.sf_text.specs.Placed.{is_written_degree};
ghost use Rattle.sf_script.specs.Headings.{HasFewVariables};
ghost use Rattle.sf_script.specs.Refusals.{HasWrittenModules, is_degree, checked_module, checked_map, checked_vector};
ghost use Rattle.sf_script.specs.SmallTerms.{HasWrittenRows, HasWrittenTerms};
ghost use Rattle.sf_script.specs.declared.check.stop.Stop.TheVariants.{Refused};
ghost use Rattle.sf_script.specs.declared.fault.LineFault.{LineFault};

use crate::check::steps::{
    are_variables, as_module, is_new, known, placed_matrix, placed_relations, placed_vector,
    provided, ring_given,
};
use crate::check::stop::Stop;
use crate::env::Env;
use crate::fault::LineFault;
use sf_matrix::{Copied, List, Name, Vector};
use sf_object::{Map, Presented};
use sf_text::{RawMatrix, first_row, has_shape, has_size, is_single_row};
use std::alloc::Global;

/// The module that a line defines.
pub fn checked_module(
    alloc: Global,
    env: &Env,
    client: &Name,
    name: &Name,
    degrees: List<i32>,
    relations: &RawMatrix,
) -> Result<Presented, Stop>
    requires few { HasFewVariables env.now.heads }
    requires written { IsTrue (list_all is_written_degree degrees) }
    ensures passed { IfOk result (λ m. checked_module env.now client.now name.now degrees relations.now.rows ≡ Ok m) }
    ensures small { IfOk result HasWrittenRows }
    ensures refused { (f : LineFault) → result ≡ Err (Refused f) →
        checked_module env.now client.now name.now degrees relations.now.rows ≡ Err f }
{
    let ring = ring_given(env)?;
    let rows = relations.rows.as_slice();
    are_variables(alloc, ring, rows)?;
    is_new(alloc, env, client, name)?;
    provided(has_shape(degrees.len(), rows), LineFault::Shape)?;
    let in_range = are_degrees(degrees.as_slice());
    let relations = placed_relations(alloc, ring, degrees, rows)?;
    provided(in_range, LineFault::Range)?;
    Ok(Presented::new(relations))
}

/// Whether each is a degree that a generator may be given.
fn are_degrees(degrees: &[i32]) -> bool
    ensures { result ≡ list_all is_degree degrees.now }
{
    degrees
        .iter()
        .all(|degree| -2000 <= *degree && *degree <= 2000)
}

/// The map that a line defines.
pub fn checked_map(
    alloc: Global,
    env: &Env,
    client: &Name,
    name: &Name,
    source: &Name,
    target: &Name,
    matrix: &RawMatrix,
) -> Result<Map, Stop>
    requires few { HasFewVariables env.now.heads }
    requires degrees { HasWrittenModules env.now }
    ensures passed { IfOk result (λ f. checked_map env.now client.now name.now source.now target.now matrix.now.rows ≡ Ok f) }
    ensures refused { (f : LineFault) → result ≡ Err (Refused f) →
        checked_map env.now client.now name.now source.now target.now matrix.now.rows ≡ Err f }
{
    let ring = ring_given(env)?;
    let from = known(alloc, env, client, source)?;
    let to = known(alloc, env, client, target)?;
    let rows = matrix.rows.as_slice();
    are_variables(alloc, ring, rows)?;
    let source = as_module(alloc, source, from)?;
    let target = as_module(alloc, target, to)?;
    is_new(alloc, env, client, name)?;
    let source_degrees = source.free().degrees.as_slice();
    let target_degrees = target.free().degrees.copy(alloc)?;
    let sized = has_size(source_degrees.len(), target_degrees.len(), rows);
    provided(sized, LineFault::Shape)?;
    let matrix = placed_matrix(alloc, ring, source_degrees, target_degrees, rows)?;
    Ok(Map {
        source: source.copy(alloc)?,
        target: target.copy(alloc)?,
        matrix,
    })
}

/// The module that a name stands for, and the vector over its generators that a line writes.
pub fn checked_vector(
    alloc: Global,
    env: &Env,
    client: &Name,
    name: &Name,
    vector: &RawMatrix,
) -> Result<(Presented, Vector), Stop>
    requires few { HasFewVariables env.now.heads }
    requires degrees { HasWrittenModules env.now }
    ensures passed { IfOk result (λ given. checked_vector env.now client.now name.now vector.now.rows ≡ Ok given) }
    ensures small { IfOk result (λ given. HasWrittenTerms given.1) }
    ensures refused { (f : LineFault) → result ≡ Err (Refused f) →
        checked_vector env.now client.now name.now vector.now.rows ≡ Err f }
{
    let ring = ring_given(env)?;
    let found = known(alloc, env, client, name)?;
    let rows = vector.rows.as_slice();
    are_variables(alloc, ring, rows)?;
    let module = as_module(alloc, name, found)?;
    let degrees = module.free().degrees.as_slice();
    provided(is_single_row(degrees.len(), rows), LineFault::Shape)?;
    let vector = placed_vector(alloc, ring, degrees, first_row(rows))?;
    Ok((module.copy(alloc)?, vector))
}
