//! `spectral` reads a script from its standard input and writes the replies to its standard output.
#![tactic(auto)]

use sf_io::{StdSink, StdSource};
use sf_pairs::{FirstStrategy, Strategy};
use sf_session::{Status, run};
use std::alloc::Global;
use std::process::ExitCode;
use std::{env, io};

fn main(rt: HostRuntime) -> ExitCode {
    let alloc = rt.alloc();
    let words = match read_words(&rt, alloc) {
        Ok(words) => words,
        Err(status) => return ExitCode::from(status.number()),
    };
    let mut strategies: Vec<Box<dyn Strategy>> = Vec::new(alloc);
    let Ok(first) = Box::new(alloc, FirstStrategy) else {
        return ExitCode::from(Status::Memory.number());
    };
    let Ok(()) = strategies.push(first) else {
        return ExitCode::from(Status::Memory.number());
    };
    let mut source = StdSource::new(rt.stdin());
    let mut sink = StdSink::new(rt.stdout());
    let status = run(alloc, words.as_slice(), &mut source, &mut sink, strategies);
    ExitCode::from(status.number())
}

/// The words after the program's name.
fn read_words(rt: &HostRuntime, alloc: Global) -> Result<Vec<String>, Status> {
    let words = match env::args(rt) {
        Ok(words) => words,
        Err(error) if error.kind() == io::ErrorKind::OutOfMemory => return Err(Status::Memory),
        Err(_) => return Err(Status::Usage),
    };
    words.skip(1).collect(alloc).map_err(|_| Status::Memory)
}
