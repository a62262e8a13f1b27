ghost use Rattle.std.specs.Prelude.{◌≡◌, ◌<◌, ◌≤◌, ◌∷◌, ◌==◌, Bool, length, List, ℕ, Option, IfSome, IfOk, option_copied, position};
ghost use Rattle.std.specs.List.{AllByRecursion, count_by};
ghost use Rattle.std.specs.Option.{option_map};
ghost use Rattle.sf_algebra.specs.Printing.{star};
ghost use Rattle.sf_grammar.specs.Words.{parts, parts_left};
ghost use Rattle.sf_text.specs.ReadTexts.{LONGEST_TEXT, IsMatrixRead};
ghost use Rattle.sf_text.specs.declared.matrix_text.ReadText.TheVariants.{Memory};
ghost use Rattle.sf_text.specs.MatrixText.{is_sign, all_of, signed_left, exponent_of, factor_written, with_factors, term_written, signed_parts, entry_of, row_of, in_brackets, matrix_written};

use crate::matrix_reaches::matrix_reach;
use crate::raw::{RawMatrix, RawTerm};
use crate::tokens::{are_digits, digits_value, is_name, make_name, read_number};
use crate::words::next_part;
use sf_field::OutOfMemory;
use sf_matrix::{List, Name};
use std::alloc::Global;
use thiserror::Error;

/// What a text may write.
trait Written: Drop {
    ghost written: { List ℕ → Option Self };

    fn read(alloc: Global, text: &[u8]) -> Result<Option<Self>, OutOfMemory>
    where
        Self: Sized,
        ensures { IfOk result (λ r. r ≡ written text.now) };
}

/// What the parts of a text write, where each writes something.
fn read_parts<W: Written>(
    alloc: Global,
    text: &[u8],
    separator: u8,
) -> Result<Option<List<W>>, OutOfMemory>
    ensures { IfOk result (λ r. r ≡ all_of W.written (parts separator text.now)) }
{
    let mut items = List::with_capacity(alloc, part_count(text, separator))?;
    let mut left = Some(text);
    while let Some(text) = left {
        let (part, others) = next_part(text, separator);
        let Some(item) = W::read(alloc, part)? else {
            return Ok(None);
        };
        items.push(item)?;
        left = others;
    }
    Ok(Some(items))
}

/// The number of parts, for which room is made at once: a matrix has very many short lists.
fn part_count(text: &[u8], separator: u8) -> usize
    ensures { result ≡ length (parts separator text.now) }
{
    count(text, separator) + 1
}

fn count(text: &[u8], byte: u8) -> usize
    ensures count { result ≡ count_by (λ b. b == byte) text.now }
    ensures within { result ≤ length text.now }
{
    text.iter().filter(|b| **b == byte).count()
}

impl Written for (Name, u16) {
    ghost written = { factor_written };

    fn read(alloc: Global, text: &[u8]) -> Result<Option<(Name, u16)>, OutOfMemory> {
        let (name, rest) = next_part(text, b'^');
        let Some(exponent) = read_exponent(rest) else {
            return Ok(None);
        };
        if !is_name(name) {
            return Ok(None);
        }
        Ok(Some((make_name(alloc, name)?, exponent)))
    }
}

/// The exponent behind a caret, and 1 where there is none.
fn read_exponent(text: Option<&[u8]>) -> Option<u16>
    ensures bounded { IfSome result (λ n. n ≤ 999) }
    ensures value { result ≡ exponent_of (option_copied text.entry) }
{
    match text {
        None => Some(1),
        Some(digits) => {
            if are_digits(digits, 3) {
                Some(digits_value(digits) as u16)
            } else {
                None
            }
        }
    }
}

/// A term behind its sign.
fn read_term(alloc: Global, minus: bool, text: &[u8]) -> Result<Option<RawTerm>, OutOfMemory>
    ensures { IfOk result (λ r. r ≡ term_written (minus, text.now)) }
{
    let (first, others) = next_part(text, b'*');
    match read_number(first) {
        Some(coefficient) => read_factors(alloc, minus, coefficient, others),
        None => read_factors(alloc, minus, 1, Some(text)),
    }
}

/// A term with this coefficient and the factors that the rest of its text writes.
fn read_factors(
    alloc: Global,
    minus: bool,
    coefficient: u64,
    text: Option<&[u8]>,
) -> Result<Option<RawTerm>, OutOfMemory>
    ensures { IfOk result (λ r. r ≡ with_factors minus coefficient (parts_left star (option_copied text.entry))) }
{
    let Some(factors) = factors_of(alloc, text)? else {
        return Ok(None);
    };
    if factors.len() > 6 {
        return Ok(None);
    }
    Ok(Some(RawTerm {
        minus,
        coefficient,
        factors,
    }))
}

#[tactic(auto, using(crate::proofs::SmallTerms::small_rules))]
fn factors_of(alloc: Global, text: Option<&[u8]>) -> Result<Option<List<(Name, u16)>>, OutOfMemory>
    ensures value { IfOk result (λ r. r ≡ all_of factor_written (parts_left star (option_copied text.entry))) }
    ensures small { IfOk result (λ r. IfSome r (AllByRecursion (λ f. f.1 ≤ 999))) }
{
    match text {
        None => Ok(Some(List::new(alloc))),
        Some(text) => read_parts(alloc, text, b'*'),
    }
}

/// The terms of a sum, the first of which has this sign.
fn read_terms(alloc: Global, minus: bool, text: &[u8]) -> Result<Option<List<RawTerm>>, OutOfMemory>
    ensures { IfOk result (λ r. r ≡ all_of term_written (signed_parts minus text.now)) }
{
    let signs = text.iter().filter(|byte| is_sign(**byte)).count();
    let mut terms = List::with_capacity(alloc, signs.saturating_add(1))?;
    let mut left = Some((minus, text));
    while let Some((minus, text)) = left {
        let (part, others) = next_signed_part(text);
        let Some(term) = read_term(alloc, minus, part)? else {
            return Ok(None);
        };
        terms.push(term)?;
        left = others;
    }
    Ok(Some(terms))
}

/// The text before the first sign, and that sign with the text behind it, if there is one.
#[tactic(auto, using(crate::proofs::Signs::sign_rules))]
fn next_signed_part(text: &[u8]) -> (&[u8], Option<(bool, &[u8])>)
    ensures cut { (negative : Bool) → signed_parts negative text.now ≡ (negative, result.0.now) ∷ signed_left (option_map (λ r. (r.0, r.1.now)) result.1) }
    ensures shorter { IfSome result.1 (λ r. length r.1.now < length text.now) }
{
    match find_sign(text) {
        None => (text, None),
        Some(end) => {
            let (part, _) = text.split_at(end);
            let (_, rest) = text.split_at(end + 1);
            (part, Some((text[end] == b'-', rest)))
        }
    }
}

fn find_sign(text: &[u8]) -> Option<usize>
    ensures { result ≡ position is_sign text.now }
{
    text.iter().position(|byte| is_sign(*byte))
}

pub fn is_sign(byte: u8) -> bool
    ensures { result ≡ is_sign byte }
{
    byte == b'+' || byte == b'-'
}

impl Written for List<RawTerm> {
    ghost written = { entry_of };

    fn read(alloc: Global, text: &[u8]) -> Result<Option<List<RawTerm>>, OutOfMemory> {
        match text.split_first() {
            Some((b'-', rest)) => read_terms(alloc, true, rest),
            _ => read_terms(alloc, false, text),
        }
    }
}

impl Written for List<List<RawTerm>> {
    ghost written = { row_of };

    fn read(alloc: Global, text: &[u8]) -> Result<Option<List<List<RawTerm>>>, OutOfMemory> {
        read_parts(alloc, text, b',')
    }
}

/// Why a text isn't read.
#[derive(Clone, Copy, Debug, PartialEq, Eq, Error)]
pub enum ReadText {
    /// It leaves the grammar at this column, counted from 1.
    #[error("the text leaves the grammar at column {col}")]
    Syntax { col: u32 },
    #[error("out of memory")]
    Memory,
}

impl From<OutOfMemory> for ReadText {
    ghost from_gives = { λ _ fault. fault ≡ Memory };

    fn from(_fault: OutOfMemory) -> ReadText {
        ReadText::Memory
    }
}

/// The matrix that a text of at most 1,048,576 bytes writes, or the column at which the text leaves the grammar.
pub fn read_matrix(alloc: Global, text: &[u8]) -> Result<RawMatrix, ReadText>
    requires { length text.now ≤ LONGEST_TEXT }
    ensures { IsMatrixRead text.now result }
{
    match written_matrix(alloc, text)? {
        Some(matrix) => Ok(matrix),
        None => Err(ReadText::Syntax {
            col: 1 + matrix_reach(text) as u32,
        }),
    }
}

/// The matrix that a text writes, if it writes one.
pub fn written_matrix(alloc: Global, text: &[u8]) -> Result<Option<RawMatrix>, OutOfMemory>
    ensures { IfOk result (λ r. r ≡ matrix_written text.now) }
{
    let Some(inner) = in_brackets(text) else {
        return Ok(None);
    };
    if inner.is_empty() {
        let rows = List::new(alloc);
        return Ok(Some(RawMatrix { rows }));
    }
    match read_parts(alloc, inner, b';')? {
        None => Ok(None),
        Some(rows) => Ok(Some(RawMatrix { rows })),
    }
}

/// What stands between the brackets of a text, where these are its first byte and its last.
fn in_brackets(text: &[u8]) -> Option<&[u8]>
    ensures { option_copied result ≡ in_brackets text.now }
{
    let Some((b'[', opened)) = text.split_first() else {
        return None;
    };
    let (inner, rest) = next_part(opened, b']');
    match rest {
        Some(rest) if rest.is_empty() => Some(inner),
        _ => None,
    }
}
