//! `algebra_bench JOB ROUNDS` does a job of the algebra as many times as the rounds say, at least once, and prints how
//! many terms come of it and the sum of their coefficients modulo 2^32.
#![tactic(auto)]

mod generator;
mod kronecker;
mod outcome;
mod products;
mod sums;

use anyhow::{Context, Result, bail};
use sf_field::Modulus;
use std::env;

fn main(rt: HostRuntime) -> Result<()> {
    let alloc = rt.alloc();
    let words: Vec<String> = env::args(&rt)?.skip(1).collect(alloc)?;
    let [job, rounds] = words.as_slice() else {
        bail!("usage: algebra_bench product|sum|kron ROUNDS");
    };
    let rounds = rounds.as_str().parse::<u32>()?;
    let modulus = Modulus::from_number(32003).context("not a modulus")?;
    let outcome = match job.as_str() {
        "product" => products::multiply_polynomials(alloc, modulus, rounds)?,
        "kron" => kronecker::multiply_by_identity(alloc, modulus, rounds)?,
        "sum" => sums::add_vectors(alloc, modulus, rounds)?,
        _ => bail!("no such job"),
    };
    println!(rt;
        "{} terms, sum of the coefficients {}",
        outcome.terms, outcome.checksum
    )?;
    Ok(())
}
