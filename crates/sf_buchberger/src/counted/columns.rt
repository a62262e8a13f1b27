ghost use Rattle.std.specs.Prelude.{◌≡◌, ◌↔◌, Bool, nat_le, length, filter, map, IfOk, IsTrue, IsSome};
ghost use Rattle.std.specs.List.{list_any};
ghost use Rattle.sf_algebra.specs.Vectors.{Place};
ghost use Rattle.sf_groebner.specs.Leads.{place_divides};

use sf_dense::Place;
use sf_field::OutOfMemory;
use sf_matrix::Term;
use sf_reduce::Leads;
use std::alloc::Global;

/// Which places of a list the leads divide.
pub(crate) fn divided(
    alloc: Global,
    columns: &[Place],
    leads: &Leads,
) -> Result<Vec<bool>, OutOfMemory>
    ensures flags { IfOk result (λ f. f.items ≡ map (λ k. list_any (λ j. place_divides j k) leads.now) columns.now) }
{
    let mut divided = Vec::with_capacity(alloc, columns.len())?;
    for place in columns {
        divided.push(divisor_of(leads, place).is_some())?;
    }
    Ok(divided)
}

/// The number of a lead that divides a place, or `None` exactly where there is none.
pub(crate) fn divisor_of(leads: &Leads, place: &Place) -> Option<usize>
    ensures divisor { IsTrue (list_any (λ j. place_divides j place.now) leads.now) ↔ IsSome result }
{
    leads.divisor(&Term {
        monomial: place.monomial,
        position: place.position,
        coefficient: 1,
    })
}

/// How many places of a list stand for coefficients: their positions are behind those of the target.
pub(crate) fn sources(columns: &[Place], target: usize) -> usize
    ensures count { result ≡ length (filter (λ (k : Place). nat_le target k.position) columns.now) }
{
    let mut count = 0;
    for place in columns {
        if target as u64 <= place.position {
            count += 1;
        }
    }
    count
}

/// How many of some flags are raised.
pub(crate) fn raised(flags: &[bool]) -> usize
    ensures count { result ≡ length (filter (λ (b : Bool). b) flags.now) }
{
    let mut count = 0;
    for flag in flags {
        if *flag {
            count += 1;
        }
    }
    count
}
