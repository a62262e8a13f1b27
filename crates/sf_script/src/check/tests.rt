//! What lines ask for in the ring of x modulo 101, where K has a generator of degree 0 and no relation.
ghost use Rattle.std.specs.Prelude.{IfOk};
ghost use Rattle.sf_script.specs.Headings.{HasFewVariables};
ghost use Rattle.sf_script.specs.Refusals.{HasWrittenModules};

use crate::{Checked, Env, LineFault, Named, check_line, read_line};
use sf_field::Modulus;
use sf_matrix::{Free, List, Matrix, Name};
use sf_object::Presented;
use sf_text::Ring;
use std::alloc::Global;
use std::test::Fail;

/// What each line asks for, or the first reason to refuse it, told by hand from the definition.
const LINES: [(&[u8], &str); 31] = [
    (b"spectral 1", "Ring"),
    (b"ring 101 x", "Ring"),
    (b"limit 61", "Range"),
    (b"limit 0", "Range"),
    (b"limit 60", "limits"),
    (b"module K degrees 0 relations [y,y]", "Unknown"),
    (b"module K degrees 0 relations [x,x]", "Taken"),
    (b"module L degrees 0 relations [x,x]", "Shape"),
    (b"module L degrees 3000 relations [x;x+1]", "Degree"),
    (b"module L degrees 3000 relations [x]", "Range"),
    (b"module L degrees 0 1 relations [x^2,x]", "defines"),
    (b"map K L M [y]", "Unknown"),
    (b"map K K K [y]", "Unknown"),
    (b"map K K K [x]", "Taken"),
    (b"map f K K [x,x]", "Shape"),
    (b"map f K K [x]", "Degree"),
    (b"map f K K [3]", "maps"),
    (b"complex K maps K L", "Unknown"),
    (b"complex K maps K", "Kind"),
    (b"kernel K", "Kind"),
    (b"let K = kernel K", "Kind"),
    (b"show L", "Unknown"),
    (b"show K", "shows"),
    (b"basis K", "basis"),
    (b"syz K", "syz"),
    (b"member L [y]", "Unknown"),
    (b"member K [x]", "member"),
    (b"lift K [x+1]", "Degree"),
    (b"lift K [x]", "lift"),
    (b"resolve K 3", "resolves"),
    (b"resolve K 17", "Range"),
];

fn told(answer: &Result<Checked, LineFault>) -> &'static str {
    match answer {
        Ok(checked) => asked(checked),
        Err(fault) => reason(fault),
    }
}

fn asked(checked: &Checked) -> &'static str {
    match checked {
        Checked::Opens => "opens",
        Checked::Enters(_) => "enters",
        Checked::Limits(_) => "limits",
        Checked::Defines(_, _) => "defines",
        Checked::Maps(_, _) => "maps",
        Checked::Chains(_, _) => "chains",
        Checked::Lets(_, _) => "lets",
        Checked::Asks(_) => "asks",
        Checked::Shows(_) => "shows",
        Checked::Basis(_) => "basis",
        Checked::Syz(_) => "syz",
        Checked::Member(_, _) => "member",
        Checked::Lift(_, _) => "lift",
        Checked::Resolves(_, _) => "resolves",
    }
}

fn reason(fault: &LineFault) -> &'static str {
    match fault {
        LineFault::Syntax { .. } => "Syntax",
        LineFault::Later => "Later",
        LineFault::Ring => "Ring",
        LineFault::Unknown { .. } => "Unknown",
        LineFault::Kind { .. } => "Kind",
        LineFault::Taken { .. } => "Taken",
        LineFault::Shape => "Shape",
        LineFault::Degree { .. } => "Degree",
        LineFault::NotMap { .. } => "NotMap",
        LineFault::NotComplex { .. } => "NotComplex",
        LineFault::Range => "Range",
        LineFault::NotInSpan => "NotInSpan",
        LineFault::Large { .. } => "Large",
    }
}

/// The ring, in which K is defined.
fn within_ring(alloc: Global) -> Result<Env, Fail>
    ensures few { IfOk result (λ env. HasFewVariables env.heads) }
    ensures degrees { IfOk result HasWrittenModules }
{
    let modulus = Modulus::from_number(101).ok_or("the modulus")?;
    let mut names = List::new(alloc);
    names.push(Name::from_text(alloc, "x")?)?;
    let mut degrees = List::new(alloc);
    degrees.push(0)?;
    let relations = Matrix::new(alloc, modulus, Free { degrees });
    let mut env = Env::new(alloc);
    env.open();
    env.enter(Ring { modulus, names });
    let client = Name::from_text(alloc, "")?;
    let name = Name::from_text(alloc, "K")?;
    env.put(
        alloc,
        &client,
        name,
        Named::Module(Presented::new(relations)),
    )?;
    Ok(env)
}

fn answer(alloc: Global, line: &[u8]) -> Result<Result<Checked, LineFault>, Fail> {
    if line.len() > 100 {
        return Ok(Err(LineFault::Later));
    }
    let env = within_ring(alloc)?;
    let client = Name::from_text(alloc, "")?;
    let line = read_line(alloc, line)?.ok_or("a line")?;
    Ok(check_line(alloc, &env, &client, line.command)?)
}

#[test]
fn lines(rt: HostRuntime) -> Result<(), Fail> {
    for (line, expected) in &LINES {
        assert_eq!(rt; told(&answer(rt.alloc(), line)?), *expected);
    }
    Ok(())
}
