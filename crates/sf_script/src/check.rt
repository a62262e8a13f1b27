ghost use Rattle.std.specs.Prelude.{IfOk, ◌≡◌, Ok, Err};
ghost use Rattle.sf_script.specs.Headings.{HasFewVariables, enters};
ghost use Rattle.sf_script.specs.Grammar.{IsWritten};
ghost use Rattle.sf_script.specs.Refusals.{checked, provided, HasWrittenModules};
ghost use Rattle.sf_script.specs.SmallTerms.{HasSmallTerms};
ghost use Rattle.sf_script.specs.declared.check.stop.Stop.TheVariants.{Refused};
ghost use Rattle.sf_script.specs.declared.fault.LineFault.{LineFault};
ghost use Rattle.sf_script.specs.declared.fault.LineFault.TheVariants as faults;

mod complexes;
mod definitions;
mod queries;
mod steps;
mod stop;

use crate::check::complexes::{checked_complex, checked_resolve};
use crate::check::definitions::{checked_map, checked_module, checked_vector};
use crate::check::queries::{checked_name, checked_query, module_named};
use crate::check::steps::{is_new, provided};
use crate::check::stop::Stop;
use crate::checked::Checked;
use crate::command::Command;
use crate::env::Env;
use crate::fault::LineFault;
use crate::headings::{can_open, entered_limit, entered_modulus};
use sf_field::OutOfMemory;
use sf_matrix::{List, Name};
use sf_text::Ring;
use std::alloc::Global;

/// What a command of a client asks for, with the things that its names stand for, or the first reason to refuse it before any
/// matrix is looked at: none of `Syntax`, `NotMap`, `NotComplex`, `NotInSpan` and `Large`.
pub fn check_line(
    alloc: Global,
    env: &Env,
    client: &Name,
    command: Command,
) -> Result<Result<Checked, LineFault>, OutOfMemory>
    requires few { HasFewVariables env.now.heads }
    requires degrees { HasWrittenModules env.now }
    requires written { IsWritten command }
    ensures checked { IfOk result (λ r. r ≡ checked env.now client.now command) }
    ensures small { IfOk result (λ r. IfOk r HasSmallTerms) }
{
    match checked(alloc, env, client, command) {
        Ok(checked) => Ok(Ok(checked)),
        Err(Stop::Refused(fault)) => Ok(Err(fault)),
        Err(Stop::Memory) => Err(OutOfMemory),
    }
}

fn checked(alloc: Global, env: &Env, client: &Name, command: Command) -> Result<Checked, Stop>
    requires few { HasFewVariables env.now.heads }
    requires degrees { HasWrittenModules env.now }
    requires written { IsWritten command }
    ensures passed { IfOk result (λ c. checked env.now client.now command ≡ Ok c) }
    ensures small { IfOk result HasSmallTerms }
    ensures refused { (f : LineFault) → result ≡ Err (Refused f) → checked env.now client.now command ≡ Err f }
{
    match command {
        Command::Spectral { version } => {
            provided(can_open(env.heads(), version), LineFault::Ring)?;
            Ok(Checked::Opens)
        }
        Command::Ring { modulus, names } => Ok(Checked::Enters(entered_ring(env, modulus, names)?)),
        Command::Limit { limit } => Ok(Checked::Limits(entered_limit(env.heads(), limit)?)),
        Command::Module {
            name,
            degrees,
            relations,
        } => {
            let module = checked_module(alloc, env, client, &name, degrees, &relations)?;
            Ok(Checked::Defines(name, module))
        }
        Command::Map {
            name,
            source,
            target,
            matrix,
        } => {
            let map = checked_map(alloc, env, client, &name, &source, &target, &matrix)?;
            Ok(Checked::Maps(name, map))
        }
        Command::Complex { name, maps } => {
            let complex = checked_complex(alloc, env, client, &name, maps.as_slice())?;
            Ok(Checked::Chains(name, complex))
        }
        Command::Let { name, query } => {
            let query = checked_query(alloc, env, client, &query)?;
            is_new(alloc, env, client, &name)?;
            Ok(Checked::Lets(name, query))
        }
        Command::Ask { query } => Ok(Checked::Asks(checked_query(alloc, env, client, &query)?)),
        Command::Show { name } => Ok(Checked::Shows(checked_name(alloc, env, client, &name)?)),
        Command::Basis { name } => Ok(Checked::Basis(module_named(alloc, env, client, &name)?)),
        Command::Syz { name } => Ok(Checked::Syz(module_named(alloc, env, client, &name)?)),
        Command::Member { name, vector } => {
            let (module, vector) = checked_vector(alloc, env, client, &name, &vector)?;
            Ok(Checked::Member(module, vector))
        }
        Command::Lift { name, vector } => {
            let (module, vector) = checked_vector(alloc, env, client, &name, &vector)?;
            Ok(Checked::Lift(module, vector))
        }
        Command::Resolve { name, steps } => {
            let (module, steps) = checked_resolve(alloc, env, client, &name, steps)?;
            Ok(Checked::Resolves(module, steps))
        }
        Command::Later => Err(Stop::Refused(LineFault::Later)),
    }
}

/// The ring that a heading gives.
fn entered_ring(env: &Env, modulus: u64, names: List<Name>) -> Result<Ring, Stop>
    ensures passed { IfOk result (λ ring.
        provided faults.Ring (enters env.now.heads modulus names) ≡ Ok tt) }
    ensures ring { IfOk result (λ ring. ring ≡ record { modulus = modulus; names = names }) }
    ensures refused { (f : LineFault) → result ≡ Err (Refused f) →
        provided faults.Ring (enters env.now.heads modulus names) ≡ Err f }
{
    match entered_modulus(env.heads(), modulus, names.as_slice()) {
        Some(modulus) => Ok(Ring { modulus, names }),
        None => Err(Stop::Refused(LineFault::Ring)),
    }
}

#[cfg(test)]
mod tests;
