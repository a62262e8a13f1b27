ghost use Rattle.std.specs.Prelude.{◌≡◌, ◌≤◌, ◌++◌, length, codes, IsTrue, IfSome, IfOk, map};
ghost use Rattle.std.specs.List.{list_all};
ghost use Rattle.std.specs.Option.{option_map};
ghost use Rattle.sf_grammar.specs.FormValues.{is_end, after, first_of, leading};
ghost use Rattle.sf_grammar.specs.Words.{words, is_space};
ghost use Rattle.sf_script.specs.Grammar.{row_reading, reading, spectral_row, ring_row, limit_row, module_row, relations_of, map_row, complex_row, names_behind, resolve_row, queries, built, later_queries, is_among, definition, named_query, name_argument, vector_arguments, command_of, is_silent, written_line, IsWritten};
ghost use Rattle.sf_script.specs.Readings.{IsReading};
ghost use Rattle.sf_text.specs.ReadTexts.{LONGEST_TEXT};
ghost use Rattle.sf_script.specs.Kinds.{word_value};
ghost use Rattle.sf_script.specs.declared.forms.Kind.TheVariants as kinds;
ghost use Rattle.sf_text.specs.Placed.{is_written_degree};

use crate::command::{Command, Line, Query};
use crate::forms::{LATER_QUERIES, LATER_WORDS, column};
use sf_field::OutOfMemory;
use sf_matrix::{List, Name};
use sf_text::{
    RawMatrix, ReadText, begins_with, is_name, make_name, next_word, read_integer, read_number,
    written_matrix,
};
use std::alloc::Global;

#[cfg(test)]
mod tests;

/// What a line of at most 1,048,576 bytes asks for, or nothing where it has no reply.
///
/// The fault `Syntax` says that the line isn't in the grammar, and has the column, counted from 1, at which it leaves it.
pub fn read_line(alloc: Global, text: &[u8]) -> Result<Option<Line>, ReadText>
    requires { length text.now ≤ LONGEST_TEXT }
    ensures { IsReading text.now result }
{
    if is_silent(text) {
        return Ok(None);
    }
    match read_written(alloc, text) {
        Ok(Some(line)) => Ok(Some(line)),
        Ok(None) => Err(ReadText::Syntax { col: column(text) }),
        Err(_) => Err(ReadText::Memory),
    }
}

fn is_silent(line: &[u8]) -> bool
    ensures { result ≡ is_silent line.now }
{
    begins_with(line, b'#') || holds_only_spaces(line)
}

fn holds_only_spaces(line: &[u8]) -> bool
    ensures { result ≡ list_all is_space line.now }
{
    line.iter().all(|byte| *byte == b' ')
}

/// What a line of the grammar asks for.
fn read_written(alloc: Global, line: &[u8]) -> Result<Option<Line>, OutOfMemory>
    ensures line { IfOk result (λ r. r ≡ written_line line.now) }
    ensures written { IfOk result (λ r. IfSome r (λ line. IsWritten line.command)) }
{
    if begins_with(line, b' ') {
        return Ok(None);
    }
    let Some(command) = read_command(alloc, line)? else {
        return Ok(None);
    };
    let client = Name::from_text(alloc, "")?;
    Ok(Some(Line { client, command }))
}

fn read_command(alloc: Global, line: &[u8]) -> Result<Option<Command>, OutOfMemory>
    ensures command { IfOk result (λ r. r ≡ command_of (words line.now)) }
    ensures written { IfOk result (λ r. IfSome r IsWritten) }
{
    let Some((first, arguments)) = next_word(line) else {
        return Ok(None);
    };
    if begins_with(first, b'@') || is_among(first, &LATER_WORDS) {
        return Ok(Some(Command::Later));
    }
    if first == b"let".as_slice() {
        return read_definition(alloc, arguments);
    }
    read_built(alloc, first, arguments)
}

fn is_among(word: &[u8], words: &[&[u8]]) -> bool
    ensures { result ≡ is_among (map (λ w. w.now) words.now) word.now }
{
    for other in words {
        if word == *other {
            return true;
        }
    }
    false
}

/// What stands behind `let`: a name, `=`, and a query to whose module the name is given.
fn read_definition(alloc: Global, line: &[u8]) -> Result<Option<Command>, OutOfMemory>
    ensures value { IfOk result (λ r. r ≡ definition (words line.now)) }
    ensures written { IfOk result (λ r. IfSome r IsWritten) }
{
    let Some((name, rest)) = take_name(alloc, line)? else {
        return Ok(None);
    };
    let Some(query) = after_word(rest, b"=") else {
        return Ok(None);
    };
    read_named_query(alloc, name, query)
}

fn read_named_query(alloc: Global, name: Name, line: &[u8]) -> Result<Option<Command>, OutOfMemory>
    ensures value { IfOk result (λ r. r ≡ named_query name (words line.now)) }
    ensures written { IfOk result (λ r. IfSome r IsWritten) }
{
    let Some((first, arguments)) = next_word(line) else {
        return Ok(None);
    };
    if is_among(first, &LATER_QUERIES) {
        return Ok(Some(Command::Later));
    }
    match read_query(alloc, first, arguments)? {
        None => Ok(None),
        Some(query) => Ok(Some(Command::Let { name, query })),
    }
}

fn read_query(alloc: Global, first: &[u8], arguments: &[u8]) -> Result<Option<Query>, OutOfMemory>
    ensures { IfOk result (λ r. r ≡ reading queries first.now (words arguments.now)) }
{
    if first == b"kernel".as_slice() {
        return Ok(read_name(alloc, arguments)?.map(|name| Query::Kernel { name }));
    }
    if first == b"image".as_slice() {
        return Ok(read_name(alloc, arguments)?.map(|name| Query::Image { name }));
    }
    if first == b"coker".as_slice() {
        return Ok(read_name(alloc, arguments)?.map(|name| Query::Coker { name }));
    }
    Ok(None)
}

fn read_built(alloc: Global, first: &[u8], arguments: &[u8]) -> Result<Option<Command>, OutOfMemory>
    ensures value { IfOk result (λ r. r ≡ reading built first.now (words arguments.now)) }
    ensures written { IfOk result (λ r. IfSome r IsWritten) }
{
    if first == b"spectral".as_slice() {
        return Ok(read_spectral(arguments));
    }
    if first == b"ring".as_slice() {
        return read_ring(alloc, arguments);
    }
    if first == b"limit".as_slice() {
        return Ok(read_limit(arguments));
    }
    if first == b"module".as_slice() {
        return read_module(alloc, arguments);
    }
    if first == b"map".as_slice() {
        return read_map(alloc, arguments);
    }
    if first == b"complex".as_slice() {
        return read_complex(alloc, arguments);
    }
    if first == b"show".as_slice() {
        return Ok(read_name(alloc, arguments)?.map(|name| Command::Show { name }));
    }
    if first == b"basis".as_slice() {
        return Ok(read_name(alloc, arguments)?.map(|name| Command::Basis { name }));
    }
    if first == b"syz".as_slice() {
        return Ok(read_name(alloc, arguments)?.map(|name| Command::Syz { name }));
    }
    if first == b"member".as_slice() {
        let given = read_vector(alloc, arguments)?;
        return Ok(given.map(|(name, vector)| Command::Member { name, vector }));
    }
    if first == b"lift".as_slice() {
        let given = read_vector(alloc, arguments)?;
        return Ok(given.map(|(name, vector)| Command::Lift { name, vector }));
    }
    if first == b"resolve".as_slice() {
        return read_resolve(alloc, arguments);
    }
    Ok(read_query(alloc, first, arguments)?.map(|query| Command::Ask { query }))
}

fn read_spectral(arguments: &[u8]) -> Option<Command>
    ensures { result ≡ row_reading spectral_row (words arguments.now) }
{
    let (version, rest) = take_integer(arguments)?;
    if is_end(rest) {
        Some(Command::Spectral { version })
    } else {
        None
    }
}

fn read_limit(arguments: &[u8]) -> Option<Command>
    ensures { result ≡ row_reading limit_row (words arguments.now) }
{
    let (limit, rest) = take_integer(arguments)?;
    if is_end(rest) {
        Some(Command::Limit { limit })
    } else {
        None
    }
}

fn read_ring(alloc: Global, arguments: &[u8]) -> Result<Option<Command>, OutOfMemory>
    ensures value { IfOk result (λ r. r ≡ row_reading ring_row (words arguments.now)) }
    ensures written { IfOk result (λ r. IfSome r IsWritten) }
{
    let Some((modulus, rest)) = take_number(arguments) else {
        return Ok(None);
    };
    let Some((first, rest)) = take_name(alloc, rest)? else {
        return Ok(None);
    };
    let mut names = List::new(alloc);
    names.push(first)?;
    let (names, rest) = take_names(alloc, names, rest)?;
    if !is_end(rest) {
        return Ok(None);
    }
    Ok(Some(Command::Ring { modulus, names }))
}

fn read_module(alloc: Global, arguments: &[u8]) -> Result<Option<Command>, OutOfMemory>
    ensures value { IfOk result (λ r. r ≡ row_reading module_row (words arguments.now)) }
    ensures written { IfOk result (λ r. IfSome r IsWritten) }
{
    let Some((name, rest)) = take_name(alloc, arguments)? else {
        return Ok(None);
    };
    let Some(rest) = after_word(rest, b"degrees") else {
        return Ok(None);
    };
    let (degrees, rest) = take_integers(alloc, rest)?;
    match read_relations(alloc, rest)? {
        None => Ok(None),
        Some(relations) => Ok(Some(Command::Module {
            name,
            degrees,
            relations,
        })),
    }
}

/// The matrix that ends the line of a module.
fn read_relations(alloc: Global, line: &[u8]) -> Result<Option<RawMatrix>, OutOfMemory>
    ensures { IfOk result (λ r. r ≡ relations_of (words line.now)) }
{
    let Some(rest) = after_word(line, b"relations") else {
        return Ok(None);
    };
    let Some((relations, rest)) = take_matrix(alloc, rest)? else {
        return Ok(None);
    };
    if is_end(rest) {
        Ok(Some(relations))
    } else {
        Ok(None)
    }
}

fn read_map(alloc: Global, arguments: &[u8]) -> Result<Option<Command>, OutOfMemory>
    ensures value { IfOk result (λ r. r ≡ row_reading map_row (words arguments.now)) }
    ensures written { IfOk result (λ r. IfSome r IsWritten) }
{
    let Some((name, rest)) = take_name(alloc, arguments)? else {
        return Ok(None);
    };
    let Some((source, rest)) = take_name(alloc, rest)? else {
        return Ok(None);
    };
    let Some((target, rest)) = take_name(alloc, rest)? else {
        return Ok(None);
    };
    let Some((matrix, rest)) = take_matrix(alloc, rest)? else {
        return Ok(None);
    };
    if !is_end(rest) {
        return Ok(None);
    }
    Ok(Some(Command::Map {
        name,
        source,
        target,
        matrix,
    }))
}

fn read_complex(alloc: Global, arguments: &[u8]) -> Result<Option<Command>, OutOfMemory>
    ensures value { IfOk result (λ r. r ≡ row_reading complex_row (words arguments.now)) }
    ensures written { IfOk result (λ r. IfSome r IsWritten) }
{
    let Some((name, rest)) = take_name(alloc, arguments)? else {
        return Ok(None);
    };
    let Some(rest) = after_word(rest, b"maps") else {
        return Ok(None);
    };
    match read_names(alloc, rest)? {
        None => Ok(None),
        Some(maps) => Ok(Some(Command::Complex { name, maps })),
    }
}

/// The names that end a line, at least one.
fn read_names(alloc: Global, line: &[u8]) -> Result<Option<List<Name>>, OutOfMemory>
    ensures value { IfOk result (λ r. r ≡ names_behind (words line.now)) }
    ensures some { IfOk result (λ r. IfSome r (λ names. 1 ≤ length names)) }
{
    let Some((first, rest)) = take_name(alloc, line)? else {
        return Ok(None);
    };
    let mut names = List::new(alloc);
    names.push(first)?;
    let (names, rest) = take_names(alloc, names, rest)?;
    if is_end(rest) {
        Ok(Some(names))
    } else {
        Ok(None)
    }
}

fn read_resolve(alloc: Global, arguments: &[u8]) -> Result<Option<Command>, OutOfMemory>
    ensures value { IfOk result (λ r. r ≡ row_reading resolve_row (words arguments.now)) }
    ensures written { IfOk result (λ r. IfSome r IsWritten) }
{
    let Some((name, rest)) = take_name(alloc, arguments)? else {
        return Ok(None);
    };
    let Some((steps, rest)) = take_integer(rest) else {
        return Ok(None);
    };
    if is_end(rest) {
        Ok(Some(Command::Resolve { name, steps }))
    } else {
        Ok(None)
    }
}

/// The one argument of a command, where it is a name.
fn read_name(alloc: Global, arguments: &[u8]) -> Result<Option<Name>, OutOfMemory>
    ensures { IfOk result (λ r. r ≡ name_argument (words arguments.now)) }
{
    let Some((name, rest)) = take_name(alloc, arguments)? else {
        return Ok(None);
    };
    if is_end(rest) {
        Ok(Some(name))
    } else {
        Ok(None)
    }
}

/// The two arguments of a command, where they are a name and a matrix.
fn read_vector(alloc: Global, arguments: &[u8]) -> Result<Option<(Name, RawMatrix)>, OutOfMemory>
    ensures { IfOk result (λ r. r ≡ vector_arguments (words arguments.now)) }
{
    let Some((name, rest)) = take_name(alloc, arguments)? else {
        return Ok(None);
    };
    let Some((vector, rest)) = take_matrix(alloc, rest)? else {
        return Ok(None);
    };
    if is_end(rest) {
        Ok(Some((name, vector)))
    } else {
        Ok(None)
    }
}

/// The first word, where it is a name, and what stands behind it.
fn take_name(alloc: Global, line: &[u8]) -> Result<Option<(Name, &[u8])>, OutOfMemory>
    ensures { IfOk result (λ r. option_map (λ p. (p.0, words p.1.now)) r
        ≡ first_of (word_value kinds.Name) (words line.now)) }
{
    match next_word(line) {
        Some((word, rest)) if is_name(word) => Ok(Some((make_name(alloc, word)?, rest))),
        _ => Ok(None),
    }
}

fn take_number(line: &[u8]) -> Option<(u64, &[u8])>
    ensures { option_map (λ p. (p.0, words p.1.now)) result ≡ first_of (word_value kinds.Number) (words line.now) }
{
    let (word, rest) = next_word(line)?;
    let number = read_number(word)?;
    Some((number, rest))
}

fn take_integer(line: &[u8]) -> Option<(i32, &[u8])>
    ensures { option_map (λ p. (p.0, words p.1.now)) result ≡ first_of (word_value kinds.Integer) (words line.now) }
{
    let (word, rest) = next_word(line)?;
    let integer = read_integer(word)?;
    Some((integer, rest))
}

fn take_matrix(alloc: Global, line: &[u8]) -> Result<Option<(RawMatrix, &[u8])>, OutOfMemory>
    ensures { IfOk result (λ r. option_map (λ p. (p.0, words p.1.now)) r
        ≡ first_of (word_value kinds.Matrix) (words line.now)) }
{
    let Some((word, rest)) = next_word(line) else {
        return Ok(None);
    };
    let Some(matrix) = written_matrix(alloc, word)? else {
        return Ok(None);
    };
    Ok(Some((matrix, rest)))
}

/// These names, and those that stand at the front of a line, and what stands behind them.
fn take_names(
    alloc: Global,
    names: List<Name>,
    line: &[u8],
) -> Result<(List<Name>, &[u8]), OutOfMemory>
    ensures names { IfOk result (λ r. r.0 ≡ names ++ (leading (word_value kinds.Name) (words line.now)).0) }
    ensures rest { IfOk result (λ r. words r.1.now ≡ (leading (word_value kinds.Name) (words line.now)).1) }
{
    let mut names = names;
    let mut rest = line;
    while let Some((word, others)) = next_word(rest) {
        if !is_name(word) {
            return Ok((names, rest));
        }
        names.push(make_name(alloc, word)?)?;
        rest = others;
    }
    Ok((names, rest))
}

/// The integers that stand at the front of a line, and what stands behind them.
fn take_integers(alloc: Global, line: &[u8]) -> Result<(List<i32>, &[u8]), OutOfMemory>
    ensures integers { IfOk result (λ r. r.0 ≡ (leading (word_value kinds.Integer) (words line.now)).0) }
    ensures rest { IfOk result (λ r. words r.1.now ≡ (leading (word_value kinds.Integer) (words line.now)).1) }
    ensures written { IfOk result (λ r. IsTrue (list_all is_written_degree r.0)) }
{
    let mut integers = List::new(alloc);
    let mut rest = line;
    while let Some((word, others)) = next_word(rest) {
        let Some(integer) = read_integer(word) else {
            return Ok((integers, rest));
        };
        integers.push(integer)?;
        rest = others;
    }
    Ok((integers, rest))
}

/// What stands behind this word, with which a line begins.
fn after_word<'a>(line: &'a [u8], word: &[u8]) -> Option<&'a [u8]>
    ensures { option_map (λ rest. words rest.now) result ≡ after word.now (words line.now) }
{
    let (first, rest) = next_word(line)?;
    if first == word { Some(rest) } else { None }
}

/// Whether no word is left.
fn is_end(line: &[u8]) -> bool
    ensures { result ≡ is_end (words line.now) }
{
    next_word(line).is_none()
}
