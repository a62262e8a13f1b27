ghost use Rattle.std.specs.Prelude.{◌≡◌, IfOk, Ok, Err};
ghost use Rattle.sf_script.specs.Headings.{HasFewVariables};
ghost use Rattle.sf_script.specs.Refusals.{HasWrittenModules, are_known, maps_named, do_meet, checked_complex, steps_asked, checked_resolve};
ghost use Rattle.sf_script.specs.declared.check.stop.Stop.TheVariants.{Refused};
ghost use Rattle.sf_script.specs.declared.fault.LineFault.{LineFault};

use crate::check::queries::{map_named, module_named};
use crate::check::steps::{is_new, known, provided, ring_given};
use crate::check::stop::Stop;
use crate::env::Env;
use crate::fault::LineFault;
use sf_matrix::{List, Name};
use sf_object::{Complex, Map, Presented};
use std::alloc::Global;

/// The complex that a line defines.
pub fn checked_complex(
    alloc: Global,
    env: &Env,
    client: &Name,
    name: &Name,
    names: &[Name],
) -> Result<Complex, Stop>
    requires few { HasFewVariables env.now.heads }
    requires degrees { HasWrittenModules env.now }
    ensures passed { IfOk result (λ c. checked_complex env.now client.now name.now names.now ≡ Ok c) }
    ensures refused { (f : LineFault) → result ≡ Err (Refused f) →
        checked_complex env.now client.now name.now names.now ≡ Err f }
{
    ring_given(env)?;
    are_known(alloc, env, client, names)?;
    let maps = maps_named(alloc, env, client, names)?;
    is_new(alloc, env, client, name)?;
    provided(do_meet(maps.as_slice()), LineFault::Shape)?;
    Ok(Complex { maps })
}

/// Nothing where all names are known.
fn are_known(alloc: Global, env: &Env, client: &Name, names: &[Name]) -> Result<(), Stop>
    requires degrees { HasWrittenModules env.now }
    ensures passed { IfOk result (λ _. are_known env.now client.now names.now ≡ Ok tt) }
    ensures refused { (f : LineFault) → result ≡ Err (Refused f) → are_known env.now client.now names.now ≡ Err f }
{
    for name in names {
        known(alloc, env, client, name)?;
    }
    Ok(())
}

/// The maps that names stand for, in order.
fn maps_named(alloc: Global, env: &Env, client: &Name, names: &[Name]) -> Result<List<Map>, Stop>
    requires few { HasFewVariables env.now.heads }
    requires degrees { HasWrittenModules env.now }
    ensures passed { IfOk result (λ fs. maps_named env.now client.now names.now ≡ Ok fs) }
    ensures refused { (f : LineFault) → result ≡ Err (Refused f) → maps_named env.now client.now names.now ≡ Err f }
{
    let mut maps = List::new(alloc);
    for name in names {
        maps.push(map_named(alloc, env, client, name)?)?;
    }
    Ok(maps)
}

/// Whether each map but the first goes to where the one before it comes from.
fn do_meet(maps: &[Map]) -> bool
    ensures { result ≡ do_meet maps.now }
{
    let Some((first, others)) = maps.split_first() else {
        return true;
    };
    let mut here = first;
    for next in others {
        if *here.source.relations() != *next.target.relations() {
            return false;
        }
        here = next;
    }
    true
}

/// The module that a name stands for, and how many steps of its resolution are asked for.
pub fn checked_resolve(
    alloc: Global,
    env: &Env,
    client: &Name,
    name: &Name,
    steps: i32,
) -> Result<(Presented, u32), Stop>
    requires few { HasFewVariables env.now.heads }
    requires degrees { HasWrittenModules env.now }
    ensures passed { IfOk result (λ given. checked_resolve env.now client.now name.now steps ≡ Ok given) }
    ensures refused { (f : LineFault) → result ≡ Err (Refused f) →
        checked_resolve env.now client.now name.now steps ≡ Err f }
{
    let module = module_named(alloc, env, client, name)?;
    match steps_asked(steps) {
        Some(steps) => Ok((module, steps)),
        None => Err(Stop::Refused(LineFault::Range)),
    }
}

/// The number of steps, where it is from 1 to 16.
fn steps_asked(steps: i32) -> Option<u32>
    ensures { result ≡ steps_asked steps }
{
    if 1 <= steps && steps <= 16 {
        Some(steps.unsigned_abs())
    } else {
        None
    }
}
