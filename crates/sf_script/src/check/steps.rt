ghost use Rattle.std.specs.Prelude.{◌≡◌, ◌≤◌, length, IfOk, IsTrue, Ok, Err};
ghost use Rattle.std.specs.List.{AllByRecursion, list_all};
ghost use Rattle.sf_algebra.specs.Rings.{plain};
ghost use Rattle.sf_text.specs.Placed.{has_shape, has_size, relations_of, matrix_between, row_vector, is_written_degree, is_homogeneous};
ghost use Rattle.sf_script.specs.Headings.{HasFewVariables};
ghost use Rattle.sf_script.specs.Refusals.{HasWrittenDegrees, HasWrittenModules, provided, ring_given, known, is_new, as_module, as_map, are_variables, are_homogeneous};
ghost use Rattle.sf_script.specs.SmallTerms.{HasWrittenRows, HasWrittenTerms};
ghost use Rattle.sf_script.specs.declared.check.stop.Stop.TheVariants.{Refused};
ghost use Rattle.sf_script.specs.declared.fault.LineFault.{LineFault};
ghost use Rattle.sf_script.specs.declared.fault.LineFault.TheVariants.{Degree};

use crate::check::stop::Stop;
use crate::env::Env;
use crate::fault::LineFault;
use crate::headings::ring_of;
use crate::named::Named;
use sf_matrix::{Copied, List, Matrix, Name, Vector};
use sf_object::{Map, Presented};
use sf_text::{RawTerm, Ring, first_unknown, place_matrix, place_row, place_rows};
use std::alloc::Global;

/// Nothing where this holds, else this refusal.
pub fn provided(holds: bool, fault: LineFault) -> Result<(), Stop>
    ensures passed { IfOk result (λ _. provided fault holds ≡ Ok tt) }
    ensures refused { (f : LineFault) → result ≡ Err (Refused f) → provided fault holds ≡ Err f }
{
    if holds {
        Ok(())
    } else {
        Err(Stop::Refused(fault))
    }
}

/// The ring, where it is given.
pub fn ring_given(env: &Env) -> Result<&Ring, Stop>
    requires few { HasFewVariables env.now.heads }
    ensures passed { IfOk result (λ ring. ring_given env.now ≡ Ok ring.now) }
    ensures few { IfOk result (λ ring. length ring.now.names ≤ 6) }
    ensures refused { (f : LineFault) → result ≡ Err (Refused f) → ring_given env.now ≡ Err f }
{
    match ring_of(env.heads()) {
        Some(ring) => Ok(ring),
        None => Err(Stop::Refused(LineFault::Ring)),
    }
}

/// What a name stands for, where it is known.
pub fn known<'a>(alloc: Global, env: &'a Env, client: &Name, name: &Name) -> Result<&'a Named, Stop>
    requires degrees { HasWrittenModules env.now }
    ensures passed { IfOk result (λ found. known env.now client.now name.now ≡ Ok found.now) }
    ensures degrees { IfOk result (λ found. HasWrittenDegrees found.now) }
    ensures refused { (f : LineFault) → result ≡ Err (Refused f) → known env.now client.now name.now ≡ Err f }
{
    match env.find(client, name) {
        Some(found) => Ok(found),
        None => Err(Stop::Refused(LineFault::Unknown {
            name: name.copy(alloc)?,
        })),
    }
}

/// Nothing where a name isn't known yet.
pub fn is_new(alloc: Global, env: &Env, client: &Name, name: &Name) -> Result<(), Stop>
    ensures passed { IfOk result (λ _. is_new env.now client.now name.now ≡ Ok tt) }
    ensures refused { (f : LineFault) → result ≡ Err (Refused f) → is_new env.now client.now name.now ≡ Err f }
{
    match env.find(client, name) {
        None => Ok(()),
        Some(_) => Err(Stop::Refused(LineFault::Taken {
            name: name.copy(alloc)?,
        })),
    }
}

/// The module that a name stands for, where it is one.
pub fn as_module<'a>(alloc: Global, name: &Name, found: &'a Named) -> Result<&'a Presented, Stop>
    requires degrees { HasWrittenDegrees found.now }
    ensures passed { IfOk result (λ m. as_module name.now found.now ≡ Ok m.now) }
    ensures degrees { IfOk result (λ m. IsTrue (list_all is_written_degree m.now.target)) }
    ensures refused { (f : LineFault) → result ≡ Err (Refused f) → as_module name.now found.now ≡ Err f }
{
    match found {
        Named::Module(module) => Ok(module),
        Named::Mapping(_) | Named::Chain(_) => Err(Stop::Refused(LineFault::Kind {
            name: name.copy(alloc)?,
        })),
    }
}

/// The map that a name stands for, where it is one.
pub fn as_map<'a>(alloc: Global, name: &Name, found: &'a Named) -> Result<&'a Map, Stop>
    ensures passed { IfOk result (λ m. as_map name.now found.now ≡ Ok m.now) }
    ensures refused { (f : LineFault) → result ≡ Err (Refused f) → as_map name.now found.now ≡ Err f }
{
    match found {
        Named::Mapping(map) => Ok(map),
        Named::Module(_) | Named::Chain(_) => Err(Stop::Refused(LineFault::Kind {
            name: name.copy(alloc)?,
        })),
    }
}

/// Nothing where the variables of a matrix are the ring's.
pub fn are_variables(alloc: Global, ring: &Ring, rows: &[List<List<RawTerm>>]) -> Result<(), Stop>
    ensures passed { IfOk result (λ _. are_variables ring.now rows.now ≡ Ok tt) }
    ensures refused { (f : LineFault) → result ≡ Err (Refused f) → are_variables ring.now rows.now ≡ Err f }
{
    match first_unknown(ring.names.as_slice(), rows) {
        None => Ok(()),
        Some(name) => Err(Stop::Refused(LineFault::Unknown {
            name: name.copy(alloc)?,
        })),
    }
}

/// The relations that the rows mean over the free module with these degrees, where each row is homogeneous.
pub fn placed_relations(
    alloc: Global,
    ring: &Ring,
    degrees: List<i32>,
    rows: &[List<List<RawTerm>>],
) -> Result<Matrix, Stop>
    requires few { length ring.now.names ≤ 6 }
    requires shaped { IsTrue (has_shape (length degrees) rows.now) }
    requires written { IsTrue (list_all is_written_degree degrees) }
    ensures placed { IfOk result (λ m. m ≡ relations_of ring.now degrees rows.now) }
    ensures passed { IfOk result (λ m. are_homogeneous (relations_of ring.now degrees rows.now) ≡ Ok tt) }
    ensures small { IfOk result HasWrittenRows }
    ensures refused { (f : LineFault) → result ≡ Err (Refused f) →
        are_homogeneous (relations_of ring.now degrees rows.now) ≡ Err f }
{
    match place_rows(alloc, ring, degrees, rows)? {
        Ok(relations) => Ok(relations),
        Err(row) => Err(Stop::Refused(LineFault::Degree { row })),
    }
}

/// The matrix that the rows mean between the free modules with these degrees, where each row is homogeneous.
pub fn placed_matrix(
    alloc: Global,
    ring: &Ring,
    source: &[i32],
    target: List<i32>,
    rows: &[List<List<RawTerm>>],
) -> Result<Matrix, Stop>
    requires few { length ring.now.names ≤ 6 }
    requires sized { IsTrue (has_size (length source.now) (length target) rows.now) }
    requires written { IsTrue (list_all is_written_degree target) }
    ensures placed { IfOk result (λ m. m ≡ matrix_between ring.now source.now target rows.now) }
    ensures passed { IfOk result (λ m. are_homogeneous (matrix_between ring.now source.now target rows.now) ≡ Ok tt) }
    ensures refused { (f : LineFault) → result ≡ Err (Refused f) →
        are_homogeneous (matrix_between ring.now source.now target rows.now) ≡ Err f }
{
    match place_matrix(alloc, ring, source, target, rows)? {
        Ok(matrix) => Ok(matrix),
        Err(row) => Err(Stop::Refused(LineFault::Degree { row })),
    }
}

/// The vector that a row means, where it is homogeneous.
pub fn placed_vector(
    alloc: Global,
    ring: &Ring,
    degrees: &[i32],
    entries: &[List<RawTerm>],
) -> Result<Vector, Stop>
    requires few { length ring.now.names ≤ 6 }
    requires shaped { length entries.now ≡ length degrees.now }
    requires written { IsTrue (list_all is_written_degree degrees.now) }
    ensures placed { IfOk result (λ v. v ≡ row_vector ring.now degrees.now entries.now) }
    ensures passed { IfOk result (λ v.
        provided (Degree 1) (is_homogeneous degrees.now (row_vector ring.now degrees.now entries.now)) ≡ Ok tt) }
    ensures small { IfOk result HasWrittenTerms }
    ensures refused { (f : LineFault) → result ≡ Err (Refused f) →
        provided (Degree 1) (is_homogeneous degrees.now (row_vector ring.now degrees.now entries.now)) ≡ Err f }
{
    match place_row(alloc, ring, degrees, entries)? {
        Some(vector) => Ok(vector),
        None => Err(Stop::Refused(LineFault::Degree { row: 1 })),
    }
}
