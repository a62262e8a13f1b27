ghost use Rattle.std.specs.Prelude.{◌≡◌, ◌++◌, IfOk, OnOk};
ghost use Rattle.sf_algebra.specs.Printing.{degrees_text};
ghost use Rattle.sf_reply.specs.Texts.{name_text, number_text, large_text, square_text, fault_text, module_text, rows_text, step_words, steps_text, reply_text};

use crate::reply::Reply;
use itoa::Buffer;
use sf_field::OutOfMemory;
use sf_matrix::{Matrix, Name};
use sf_script::LineFault;
use sf_text::{print_degrees, print_matrix};
use std::alloc::Global;

/// The text of a reply, with its LF, where the ring's variables have these names.
pub fn reply_text(alloc: Global, reply: &Reply, names: &[Name]) -> Result<Vec<u8>, OutOfMemory>
    ensures { IfOk result (λ text. text.items ≡ reply_text names.now reply.now) }
{
    let mut out = Vec::new(alloc);
    match reply {
        Reply::Accepted => out.extend_from_slice(b"ok\n")?,
        Reply::ShowModule { relations } => push_module(&mut out, names, relations)?,
        Reply::ShowMap { matrix } => push_rows(&mut out, b"map ", names, matrix)?,
        Reply::Basis { matrix } => push_rows(&mut out, b"basis ", names, matrix)?,
        Reply::Syz { matrix } => push_rows(&mut out, b"syz ", names, matrix)?,
        Reply::Lift { matrix } => push_rows(&mut out, b"lift ", names, matrix)?,
        Reply::Member { yes: true } => out.extend_from_slice(b"member yes\n")?,
        Reply::Member { yes: false } => out.extend_from_slice(b"member no\n")?,
        Reply::Differentials { steps } => push_steps(&mut out, names, steps.as_slice())?,
        Reply::Pair { gens, rels } => {
            push_rows(&mut out, b"gens ", names, gens)?;
            push_rows(&mut out, b"rels ", names, rels)?;
        }
    }
    Ok(out)
}

/// Appends the reply to a line that is refused, with its LF. Where memory runs out, a beginning of it may have been appended.
pub fn fault_text(fault: &LineFault, out: &mut Vec<u8>) -> Result<(), OutOfMemory>
    ensures { OnOk result (out.new.items ≡ out.old.items ++ fault_text fault.now) }
{
    match fault {
        LineFault::Syntax { col } => push_number(out, b"error syntax ", *col as u64)?,
        LineFault::Later => out.extend_from_slice(b"error later\n")?,
        LineFault::Ring => out.extend_from_slice(b"error ring\n")?,
        LineFault::Unknown { name } => push_name(out, b"error name ", name)?,
        LineFault::Kind { name } => push_name(out, b"error kind ", name)?,
        LineFault::Taken { name } => push_name(out, b"error taken ", name)?,
        LineFault::Shape => out.extend_from_slice(b"error shape\n")?,
        LineFault::Degree { row } => push_number(out, b"error degree ", *row)?,
        LineFault::NotMap { relation } => push_number(out, b"error map ", *relation)?,
        LineFault::NotComplex { place } => push_square(out, *place)?,
        LineFault::Range => out.extend_from_slice(b"error range\n")?,
        LineFault::NotInSpan => out.extend_from_slice(b"error none\n")?,
        LineFault::Large { rows, cols } => push_large(out, *rows, *cols)?,
    }
    Ok(())
}

/// Appends a name behind these words.
fn push_name(out: &mut Vec<u8>, words: &[u8], name: &Name) -> Result<(), OutOfMemory>
    ensures { OnOk result (out.new.items ≡ out.old.items ++ name_text words.now name.now) }
{
    out.extend_from_slice(words)?;
    out.extend_from_slice(name.as_str().as_bytes())?;
    out.push(b'\n')?;
    Ok(())
}

/// Appends a number behind these words.
fn push_number(out: &mut Vec<u8>, words: &[u8], number: u64) -> Result<(), OutOfMemory>
    ensures { OnOk result (out.new.items ≡ out.old.items ++ number_text words.now number) }
{
    let mut buffer = Buffer::new();
    out.extend_from_slice(words)?;
    out.extend_from_slice(buffer.format(number).as_bytes())?;
    out.push(b'\n')?;
    Ok(())
}

fn push_square(out: &mut Vec<u8>, place: u64) -> Result<(), OutOfMemory>
    ensures { OnOk result (out.new.items ≡ out.old.items ++ square_text place) }
{
    let mut buffer = Buffer::new();
    out.extend_from_slice(b"error square ")?;
    out.extend_from_slice(buffer.format(place).as_bytes())?;
    out.extend_from_slice(b" 0\n")?;
    Ok(())
}

fn push_large(out: &mut Vec<u8>, rows: u64, cols: u64) -> Result<(), OutOfMemory>
    ensures { OnOk result (out.new.items ≡ out.old.items ++ large_text rows cols) }
{
    let mut buffer = Buffer::new();
    out.extend_from_slice(b"error large ")?;
    out.extend_from_slice(buffer.format(rows).as_bytes())?;
    out.push(b' ')?;
    out.extend_from_slice(buffer.format(cols).as_bytes())?;
    out.push(b'\n')?;
    Ok(())
}

/// Appends a matrix behind these words.
fn push_rows(
    out: &mut Vec<u8>,
    words: &[u8],
    names: &[Name],
    matrix: &Matrix,
) -> Result<(), OutOfMemory>
    ensures { OnOk result (out.new.items ≡ out.old.items ++ rows_text words.now names.now matrix.now) }
{
    out.extend_from_slice(words)?;
    print_matrix(out, names, matrix)?;
    out.push(b'\n')?;
    Ok(())
}

/// Appends the matrices of a complex, each behind the place from which it leaves.
fn push_steps(out: &mut Vec<u8>, names: &[Name], steps: &[Matrix]) -> Result<(), OutOfMemory>
    ensures { OnOk result (out.new.items ≡ out.old.items ++ steps_text names.now 1 steps.now) }
{
    for (before, step) in steps.iter().enumerate() {
        push_step(out, before as u64 + 1, names, step)?;
    }
    Ok(())
}

fn push_step(
    out: &mut Vec<u8>,
    place: u64,
    names: &[Name],
    step: &Matrix,
) -> Result<(), OutOfMemory>
    ensures { OnOk result (out.new.items ≡ out.old.items ++ rows_text (step_words place) names.now step.now) }
{
    let mut buffer = Buffer::new();
    out.push(b'd')?;
    out.extend_from_slice(buffer.format(place).as_bytes())?;
    push_rows(out, b" ", names, step)
}

fn push_module(out: &mut Vec<u8>, names: &[Name], relations: &Matrix) -> Result<(), OutOfMemory>
    ensures { OnOk result (out.new.items ≡ out.old.items ++ module_text names.now relations.now) }
{
    out.extend_from_slice(b"degrees ")?;
    print_degrees(out, relations.target().degrees.as_slice())?;
    out.push(b'\n')?;
    push_rows(out, b"rels ", names, relations)
}
