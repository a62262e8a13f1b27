//! Replies and their texts, by worked values.

use crate::{Reply, fault_text, reply_text};
use sf_field::Modulus;
use sf_matrix::{Free, List, Matrix, Name};
use sf_script::LineFault;
use std::alloc::Global;
use std::test::Fail;

#[test]
fn faults(rt: HostRuntime) -> Result<(), Fail> {
    let alloc = rt.alloc();
    let table = [
        (LineFault::Syntax { col: 33 }, "error syntax 33\n"),
        (LineFault::Later, "error later\n"),
        (LineFault::Ring, "error ring\n"),
        (
            LineFault::Unknown {
                name: Name::from_text(alloc, "w")?,
            },
            "error name w\n",
        ),
        (
            LineFault::Kind {
                name: Name::from_text(alloc, "K")?,
            },
            "error kind K\n",
        ),
        (
            LineFault::Taken {
                name: Name::from_text(alloc, "K")?,
            },
            "error taken K\n",
        ),
        (LineFault::Shape, "error shape\n"),
        (LineFault::Degree { row: 12 }, "error degree 12\n"),
        (LineFault::NotMap { relation: 2 }, "error map 2\n"),
        (LineFault::NotComplex { place: 3 }, "error square 3 0\n"),
        (LineFault::Range, "error range\n"),
        (LineFault::NotInSpan, "error none\n"),
        (
            LineFault::Large {
                rows: 40_000,
                cols: 1,
            },
            "error large 40000 1\n",
        ),
    ];
    for (fault, written) in table {
        let mut text = Vec::new(alloc);
        fault_text(&fault, &mut text)?;
        assert_eq!(rt; text.as_slice(), written.as_bytes());
    }
    Ok(())
}

#[test]
fn answers(rt: HostRuntime) -> Result<(), Fail> {
    let table = [
        (Reply::Accepted, "ok\n"),
        (Reply::Member { yes: true }, "member yes\n"),
        (Reply::Member { yes: false }, "member no\n"),
    ];
    for (reply, written) in table {
        assert_eq!(rt; text_of(rt.alloc(), &reply)?.as_slice(), written.as_bytes());
    }
    Ok(())
}

#[test]
fn matrices(rt: HostRuntime) -> Result<(), Fail> {
    let alloc = rt.alloc();
    assert_eq!(rt;
        show_module(alloc)?.as_slice(),
        b"degrees (-7)\nrels ()->(-7) []\n".as_slice()
    );
    assert_eq!(rt;
        show_map(alloc)?.as_slice(),
        b"map ()->(-7) []\n".as_slice()
    );
    assert_eq!(rt;
        pair(alloc)?.as_slice(),
        b"gens ()->(-7) []\nrels ()->(-7) []\n".as_slice()
    );
    Ok(())
}

#[test]
fn steps(rt: HostRuntime) -> Result<(), Fail> {
    let alloc = rt.alloc();
    let mut steps = List::new(alloc);
    steps.push(no_rows(alloc)?)?;
    steps.push(no_rows(alloc)?)?;
    let text = text_of(alloc, &Reply::Differentials { steps })?;
    assert_eq!(rt;
        text.as_slice(),
        b"d1 ()->(-7) []\nd2 ()->(-7) []\n".as_slice()
    );
    Ok(())
}

fn show_module(alloc: Global) -> Result<Vec<u8>, Fail> {
    let relations = no_rows(alloc)?;
    text_of(alloc, &Reply::ShowModule { relations })
}

fn show_map(alloc: Global) -> Result<Vec<u8>, Fail> {
    let matrix = no_rows(alloc)?;
    text_of(alloc, &Reply::ShowMap { matrix })
}

fn pair(alloc: Global) -> Result<Vec<u8>, Fail> {
    let gens = no_rows(alloc)?;
    let rels = no_rows(alloc)?;
    text_of(alloc, &Reply::Pair { gens, rels })
}

/// The text of a reply, in the ring of x.
fn text_of(alloc: Global, reply: &Reply) -> Result<Vec<u8>, Fail> {
    let names = [Name::from_text(alloc, "x")?];
    Ok(reply_text(alloc, reply, &names)?)
}

/// The matrix without rows over one generator of degree -7.
fn no_rows(alloc: Global) -> Result<Matrix, Fail> {
    let modulus = Modulus::from_number(101).ok_or("the modulus")?;
    let mut degrees = List::new(alloc);
    degrees.push(-7)?;
    Ok(Matrix::new(alloc, modulus, Free { degrees }))
}
