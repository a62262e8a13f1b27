ghost use Rattle.std.specs.Prelude.{◌≡◌, IfOk, Ok, Err};
ghost use Rattle.sf_script.specs.Headings.{HasFewVariables};
ghost use Rattle.sf_script.specs.Refusals.{HasWrittenModules, checked_name, module_named, map_named, checked_query};
ghost use Rattle.sf_script.specs.declared.check.stop.Stop.TheVariants.{Refused};
ghost use Rattle.sf_script.specs.declared.fault.LineFault.{LineFault};

use crate::check::steps::{as_map, as_module, known, ring_given};
use crate::check::stop::Stop;
use crate::checked::CheckedQuery;
use crate::command::Query;
use crate::env::Env;
use crate::named::Named;
use sf_matrix::{Copied, Name};
use sf_object::{Map, Presented};
use std::alloc::Global;

/// What a name stands for, in a ring.
pub fn checked_name(alloc: Global, env: &Env, client: &Name, name: &Name) -> Result<Named, Stop>
    requires few { HasFewVariables env.now.heads }
    requires degrees { HasWrittenModules env.now }
    ensures passed { IfOk result (λ found. checked_name env.now client.now name.now ≡ Ok found) }
    ensures refused { (f : LineFault) → result ≡ Err (Refused f) → checked_name env.now client.now name.now ≡ Err f }
{
    ring_given(env)?;
    let found = known(alloc, env, client, name)?;
    Ok(found.copy(alloc)?)
}

/// The module that a name stands for, in a ring.
pub fn module_named(alloc: Global, env: &Env, client: &Name, name: &Name) -> Result<Presented, Stop>
    requires few { HasFewVariables env.now.heads }
    requires degrees { HasWrittenModules env.now }
    ensures passed { IfOk result (λ m. module_named env.now client.now name.now ≡ Ok m) }
    ensures refused { (f : LineFault) → result ≡ Err (Refused f) → module_named env.now client.now name.now ≡ Err f }
{
    ring_given(env)?;
    let found = known(alloc, env, client, name)?;
    let module = as_module(alloc, name, found)?;
    Ok(module.copy(alloc)?)
}

/// The map that a name stands for, in a ring.
pub fn map_named(alloc: Global, env: &Env, client: &Name, name: &Name) -> Result<Map, Stop>
    requires few { HasFewVariables env.now.heads }
    requires degrees { HasWrittenModules env.now }
    ensures passed { IfOk result (λ m. map_named env.now client.now name.now ≡ Ok m) }
    ensures refused { (f : LineFault) → result ≡ Err (Refused f) → map_named env.now client.now name.now ≡ Err f }
{
    ring_given(env)?;
    let found = known(alloc, env, client, name)?;
    let map = as_map(alloc, name, found)?;
    Ok(map.copy(alloc)?)
}

/// What a query asks for, of a map that is known.
pub fn checked_query(
    alloc: Global,
    env: &Env,
    client: &Name,
    query: &Query,
) -> Result<CheckedQuery, Stop>
    requires few { HasFewVariables env.now.heads }
    requires degrees { HasWrittenModules env.now }
    ensures passed { IfOk result (λ q. checked_query env.now client.now query.now ≡ Ok q) }
    ensures refused { (f : LineFault) → result ≡ Err (Refused f) → checked_query env.now client.now query.now ≡ Err f }
{
    match query {
        Query::Kernel { name } => Ok(CheckedQuery::Kernel(map_named(alloc, env, client, name)?)),
        Query::Image { name } => Ok(CheckedQuery::Image(map_named(alloc, env, client, name)?)),
        Query::Coker { name } => Ok(CheckedQuery::Coker(map_named(alloc, env, client, name)?)),
    }
}
