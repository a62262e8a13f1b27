//! How far a text reaches into a written matrix, level by level.

ghost use Rattle.std.specs.Prelude.{◌≡◌, ◌≤◌, ◌==◌, ℕ, List, length, if◌then◌else◌, Some, None};
ghost use Rattle.sf_algebra.specs.Printing.{comma, semicolon, star};
ghost use Rattle.sf_text.specs.MatrixText.{caret, closing, is_sign};
ghost use Rattle.sf_text.specs.MatrixReaches.{is_factor, is_term, is_entry, is_row, are_rows, is_matrix, each, factor_machine, factor_part_reach, factor_reach, factor_after, term_machine, term_part_reach, term_reach, entry_reach, row_reach, rows_reach, matrix_machine, matrix_part_reach, matrix_reach, MatricesReach};

use crate::machines::{Part, Reach, State, reach_of};
use crate::matrix_text::is_sign;
use crate::reaches::{digits_reach, name_reach, number_reach};
use crate::tokens::{are_digits, is_name, read_number};

/// The parts of a factor.
#[derive(Clone, Copy)]
pub enum FactorPart {
    Name,
    Exponent,
}

/// The parts of a term: what comes first, and a factor behind which so many more may come.
#[derive(Clone, Copy)]
pub enum TermPart {
    First,
    Factor(u8),
}

/// The parts of an entry.
#[derive(Clone, Copy)]
pub enum EntryPart {
    Term,
}

/// The parts of a row.
#[derive(Clone, Copy)]
pub enum RowPart {
    Entry,
}

/// The parts of some rows.
#[derive(Clone, Copy)]
pub enum RowsPart {
    Row,
}

/// The parts of a matrix behind its opening bracket.
#[derive(Clone, Copy)]
pub enum MatrixPart {
    Rows,
    End,
}

impl State for FactorPart {
    ghost machine = { factor_machine };

    ghost separates = { λ b. b == caret };

    ghost reach = { factor_part_reach };

    fn is_separator(byte: u8) -> bool {
        byte == b'^'
    }

    fn part(self, text: &[u8]) -> Part<FactorPart> {
        match self {
            FactorPart::Name => {
                let last = is_name(text);
                Part {
                    reach: name_reach(text),
                    last,
                    next: last.then_some(FactorPart::Exponent),
                }
            }
            FactorPart::Exponent => Part {
                reach: digits_reach(text, 3),
                last: are_digits(text, 3),
                next: None,
            },
        }
    }
}

#[tactic(auto, using(crate::proofs::MatrixLanguages::language_rules))]
fn factor_reach(text: &[u8]) -> Reach
    ensures whole { result.whole ≡ is_factor text.now }
    ensures length { result.length ≡ factor_reach text.now }
    ensures within { result.length ≤ length text.now }
{
    reach_of(FactorPart::Name, text)
}

impl State for TermPart {
    ghost machine = { term_machine };

    ghost separates = { λ b. b == star };

    ghost reach = { term_part_reach };

    fn is_separator(byte: u8) -> bool {
        byte == b'*'
    }

    fn part(self, text: &[u8]) -> Part<TermPart> {
        let factor = factor_reach(text);
        match self {
            TermPart::First => {
                let is_number = read_number(text).is_some();
                Part {
                    reach: number_reach(text).max(factor.length),
                    last: is_number || factor.whole,
                    next: first_next(is_number, factor.whole),
                }
            }
            TermPart::Factor(more) => Part {
                reach: factor.length,
                last: factor.whole,
                next: if factor.whole {
                    factor_after(more)
                } else {
                    None
                },
            },
        }
    }
}

/// What comes behind the first part of a term: six factors behind a number, and five behind a factor.
fn first_next(is_number: bool, is_factor: bool) -> Option<TermPart>
    ensures { result ≡ if is_number then factor_after 6 else (if is_factor then factor_after 5 else None) }
{
    if is_number {
        factor_after(6)
    } else if is_factor {
        factor_after(5)
    } else {
        None
    }
}

fn factor_after(more: u8) -> Option<TermPart>
    ensures { result ≡ factor_after more }
{
    if more == 0 {
        None
    } else {
        Some(TermPart::Factor(more - 1))
    }
}

#[tactic(auto, using(crate::proofs::MatrixLanguages::language_rules))]
fn term_reach(text: &[u8]) -> Reach
    ensures whole { result.whole ≡ is_term text.now }
    ensures length { result.length ≡ term_reach text.now }
    ensures within { result.length ≤ length text.now }
{
    reach_of(TermPart::First, text)
}

/// A part that passes a test, behind which others may come that do.
fn each<S: Copy>(state: S, part: Reach) -> Part<S>
    ensures reach { result.reach ≡ part.length }
    ensures last { result.last ≡ part.whole }
    ensures next { result.next ≡ if part.whole then Some state else None }
{
    Part {
        reach: part.length,
        last: part.whole,
        next: part.whole.then_some(state),
    }
}

impl State for EntryPart {
    ghost machine = { each is_term };

    ghost separates = { is_sign };

    ghost reach = { λ state. term_reach };

    fn is_separator(byte: u8) -> bool {
        is_sign(byte)
    }

    fn part(self, text: &[u8]) -> Part<EntryPart> {
        each(self, term_reach(text))
    }
}

#[tactic(auto, using(crate::proofs::MatrixLanguages::language_rules))]
fn entry_reach(text: &[u8]) -> Reach
    ensures whole { result.whole ≡ is_entry text.now }
    ensures length { result.length ≡ entry_reach text.now }
    ensures within { result.length ≤ length text.now }
{
    match text.split_first() {
        Some((b'-', terms)) => {
            let behind = reach_of(EntryPart::Term, terms);
            Reach {
                length: 1 + behind.length,
                whole: behind.whole,
            }
        }
        _ => reach_of(EntryPart::Term, text),
    }
}

impl State for RowPart {
    ghost machine = { each is_entry };

    ghost separates = { λ b. b == comma };

    ghost reach = { λ state. entry_reach };

    fn is_separator(byte: u8) -> bool {
        byte == b','
    }

    fn part(self, text: &[u8]) -> Part<RowPart> {
        each(self, entry_reach(text))
    }
}

#[tactic(auto, using(crate::proofs::MatrixLanguages::language_rules))]
fn row_reach(text: &[u8]) -> Reach
    ensures whole { result.whole ≡ is_row text.now }
    ensures length { result.length ≡ row_reach text.now }
    ensures within { result.length ≤ length text.now }
{
    reach_of(RowPart::Entry, text)
}

impl State for RowsPart {
    ghost machine = { each is_row };

    ghost separates = { λ b. b == semicolon };

    ghost reach = { λ state. row_reach };

    fn is_separator(byte: u8) -> bool {
        byte == b';'
    }

    fn part(self, text: &[u8]) -> Part<RowsPart> {
        each(self, row_reach(text))
    }
}

#[tactic(auto, using(crate::proofs::MatrixLanguages::language_rules))]
fn rows_reach(text: &[u8]) -> Reach
    ensures whole { result.whole ≡ are_rows text.now }
    ensures length { result.length ≡ rows_reach text.now }
    ensures within { result.length ≤ length text.now }
{
    let rows = reach_of(RowsPart::Row, text);
    Reach {
        length: rows.length,
        whole: rows.whole || text.is_empty(),
    }
}

impl State for MatrixPart {
    ghost machine = { matrix_machine };

    ghost separates = { λ b. b == closing };

    ghost reach = { matrix_part_reach };

    fn is_separator(byte: u8) -> bool {
        byte == b']'
    }

    fn part(self, text: &[u8]) -> Part<MatrixPart> {
        match self {
            MatrixPart::Rows => {
                let rows = rows_reach(text);
                Part {
                    reach: rows.length,
                    last: false,
                    next: rows.whole.then_some(MatrixPart::End),
                }
            }
            MatrixPart::End => Part {
                reach: 0,
                last: text.is_empty(),
                next: None,
            },
        }
    }
}

/// How far a text is a beginning of a written matrix.
pub fn matrix_reach(text: &[u8]) -> usize
    ensures value { result ≡ matrix_reach text.now }
    ensures within { result ≤ length text.now }
{
    whole_reach(text).length
}

/// Whether a text is a written matrix.
pub fn is_matrix(text: &[u8]) -> bool
    ensures { result ≡ is_matrix text.now }
{
    whole_reach(text).whole
}

#[tactic(auto, using(crate::proofs::MatrixLanguages::language_rules))]
fn whole_reach(text: &[u8]) -> Reach
    ensures whole { result.whole ≡ is_matrix text.now }
    ensures length { result.length ≡ matrix_reach text.now }
    ensures within { result.length ≤ length text.now }
{
    match text.split_first() {
        Some((b'[', rows)) => {
            let behind = reach_of(MatrixPart::Rows, rows);
            Reach {
                length: 1 + behind.length,
                whole: behind.whole,
            }
        }
        _ => Reach {
            length: 0,
            whole: false,
        },
    }
}

/// It is how far a text reaches, also where certain other bytes may not stand in what goes on behind it.
pub fn matrices_reach()
    ensures { MatricesReach }
{}

#[cfg(test)]
mod tests;
