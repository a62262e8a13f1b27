ghost use Rattle.std.specs.Prelude.{◌≡◌, ◌≤◌, length, map};
ghost use Rattle.std.specs.Option.{option_map};
ghost use Rattle.sf_grammar.specs.Forms.{items_behind, left_after, items_reach, line_machine, form_reach, line_reach};
ghost use Rattle.sf_grammar.specs.Reaches.{IsColumn};
ghost use Rattle.sf_script.specs.Grammar.{forms, later_items, is_line};
ghost use Rattle.sf_script.specs.Kinds.{kinds};
ghost use Rattle.sf_script.specs.Tables.{items_of};
ghost use Rattle.sf_text.specs.ReadTexts.{LONGEST_TEXT};

use Item::{Anything, Many, One, Word};
use Kind::{Client, Integer, Matrix, Name, Number};
use sf_text::{
    begins_with, integer_reach, is_matrix, is_name, matrix_reach, name_reach, next_part,
    number_reach, read_integer, read_number, word_reach,
};

/// A kind of words in the lines of the language.
#[derive(Clone, Copy, Debug)]
pub enum Kind {
    /// A letter, and at most 31 letters, digits and underscores.
    Name,
    /// 1 to 18 digits.
    Number,
    /// 1 to 6 digits, which a minus may precede.
    Integer,
    /// Rows in brackets, with no space inside.
    Matrix,
    /// A word that begins with `@`, with which the lines of named clients begin.
    Client,
}

/// What stands in a line.
#[derive(Clone, Copy, Debug)]
pub enum Item {
    /// This word.
    Word(&'static [u8]),
    /// A word of a kind.
    One(Kind),
    /// As many words of a kind as there are.
    Many(Kind),
    /// Anything up to the end of the line.
    Anything,
}

/// The command words that the language has and that aren't built yet.
pub const LATER_WORDS: [&[u8]; 20] = [
    b"bicomplex",
    b"at",
    b"dh",
    b"dv",
    b"seal",
    b"hom",
    b"tensor",
    b"ext",
    b"tor",
    b"page",
    b"diff",
    b"next",
    b"total",
    b"filtration",
    b"purity",
    b"witness",
    b"work",
    b"balance",
    b"connect",
    b"hyper",
];

/// The query words that the language has and that aren't built yet.
pub const LATER_QUERIES: [&[u8]; 6] = [b"hom", b"tensor", b"ext", b"tor", b"page", b"total"];

/// The forms of the lines that are read to their end, and of those of `let` that aren't built.
const FORMS: [&[Item]; 24] = [
    &[Word(b"spectral"), One(Integer)],
    &[Word(b"ring"), One(Number), One(Name), Many(Name)],
    &[Word(b"limit"), One(Integer)],
    &[
        Word(b"module"),
        One(Name),
        Word(b"degrees"),
        Many(Integer),
        Word(b"relations"),
        One(Matrix),
    ],
    &[Word(b"map"), One(Name), One(Name), One(Name), One(Matrix)],
    &[
        Word(b"complex"),
        One(Name),
        Word(b"maps"),
        One(Name),
        Many(Name),
    ],
    &[Word(b"show"), One(Name)],
    &[Word(b"basis"), One(Name)],
    &[Word(b"syz"), One(Name)],
    &[Word(b"member"), One(Name), One(Matrix)],
    &[Word(b"lift"), One(Name), One(Matrix)],
    &[Word(b"resolve"), One(Name), One(Integer)],
    &[Word(b"kernel"), One(Name)],
    &[Word(b"image"), One(Name)],
    &[Word(b"coker"), One(Name)],
    &[
        Word(b"let"),
        One(Name),
        Word(b"="),
        Word(b"kernel"),
        One(Name),
    ],
    &[
        Word(b"let"),
        One(Name),
        Word(b"="),
        Word(b"image"),
        One(Name),
    ],
    &[
        Word(b"let"),
        One(Name),
        Word(b"="),
        Word(b"coker"),
        One(Name),
    ],
    &[Word(b"let"), One(Name), Word(b"="), Word(b"hom"), Anything],
    &[
        Word(b"let"),
        One(Name),
        Word(b"="),
        Word(b"tensor"),
        Anything,
    ],
    &[Word(b"let"), One(Name), Word(b"="), Word(b"ext"), Anything],
    &[Word(b"let"), One(Name), Word(b"="), Word(b"tor"), Anything],
    &[Word(b"let"), One(Name), Word(b"="), Word(b"page"), Anything],
    &[
        Word(b"let"),
        One(Name),
        Word(b"="),
        Word(b"total"),
        Anything,
    ],
];

/// How far a text is a beginning of a word of a kind.
fn kind_reach(kind: Kind, text: &[u8]) -> usize
    ensures value { result ≡ kinds.reach kind text.now }
    ensures within { result ≤ length text.now }
{
    match kind {
        Name => name_reach(text),
        Number => number_reach(text),
        Integer => integer_reach(text),
        Matrix => matrix_reach(text),
        Client if begins_with(text, b'@') => text.len(),
        Client => 0,
    }
}

/// Whether a word is of a kind.
fn is_of(kind: Kind, word: &[u8]) -> bool
    ensures { result ≡ kinds.is_of kind word.now }
{
    match kind {
        Name => is_name(word),
        Number => read_number(word).is_some(),
        Integer => read_integer(word).is_some(),
        Matrix => is_matrix(word),
        Client => begins_with(word, b'@'),
    }
}

/// How far a text is a beginning of a word that may stand where these items do.
fn items_reach(items: &[Item], text: &[u8]) -> usize
    ensures value { result ≡ items_reach kinds (items_of items.now) text.now }
    ensures within { result ≤ length text.now }
{
    let mut reach = 0;
    for item in items {
        match item {
            Word(spelling) => return word_reach(text, spelling).max(reach),
            One(kind) => return kind_reach(*kind, text).max(reach),
            Many(kind) => reach = kind_reach(*kind, text).max(reach),
            Anything => return text.len(),
        }
    }
    reach
}

/// The items behind a word, if it may stand where these items do.
fn left_after<'a>(items: &'a [Item], word: &[u8]) -> Option<&'a [Item]>
    ensures { option_map (λ left. items_of left.now) result ≡ left_after kinds (items_of items.now) word.now }
{
    let mut left = items;
    while let Some((item, others)) = left.split_first() {
        match item {
            Word(spelling) => {
                return if word == *spelling {
                    Some(others)
                } else {
                    None
                };
            }
            One(kind) => {
                return if is_of(*kind, word) {
                    Some(others)
                } else {
                    None
                };
            }
            Many(kind) => {
                if is_of(*kind, word) {
                    return Some(left);
                }
                left = others;
            }
            Anything => return Some(left),
        }
    }
    None
}

/// The items that are left behind a part of a line, if the line may go on: an empty part is left out, unless it is the
/// first.
fn next_items<'a>(items: &'a [Item], at_front: bool, part: &[u8]) -> Option<&'a [Item]>
    ensures { option_map (λ left. items_behind (items_of left.now)) result
        ≡ (line_machine kinds).next (record { at_front = at_front; left = items_of items.now }) part.now }
{
    if part.is_empty() {
        return if at_front { None } else { Some(items) };
    }
    left_after(items, part)
}

/// How far a text is a beginning of a line of this form.
fn form_reach(form: &[Item], text: &[u8]) -> usize
    ensures value { result ≡ form_reach kinds (items_of form.now) text.now }
    ensures within { result ≤ length text.now }
{
    let mut items = form;
    let mut at_front = true;
    let mut left = text;
    let mut done = 0;
    loop {
        let (part, others) = next_part(left, b' ');
        let here = items_reach(items, part);
        let Some(rest) = others else {
            return done + here;
        };
        let Some(after) = next_items(items, at_front, part) else {
            return done + here;
        };
        done += part.len() + 1;
        at_front = false;
        items = after;
        left = rest;
    }
}

/// How far a text is a beginning of a line of the language.
fn line_reach(text: &[u8]) -> usize
    ensures value { result ≡ line_reach kinds forms text.now }
    ensures within { result ≤ length text.now }
{
    let client = form_reach(&[One(Client), Anything], text);
    client
        .max(later_reach(&LATER_WORDS, text))
        .max(greatest_reach(&FORMS, text))
}

/// How far a text is a beginning of a line that begins with one of these words, whatever stands behind it.
fn later_reach(spellings: &[&'static [u8]], text: &[u8]) -> usize
    ensures value { result ≡ line_reach kinds (map (λ word. later_items word.now) spellings.now) text.now }
    ensures within { result ≤ length text.now }
{
    let mut reach = 0;
    for spelling in spellings {
        reach = form_reach(&[Word(spelling), Anything], text).max(reach);
    }
    reach
}

/// How far a text is a beginning of a line of one of these forms.
fn greatest_reach(forms: &[&[Item]], text: &[u8]) -> usize
    ensures value { result ≡ line_reach kinds (map (λ form. items_of form.now) forms.now) text.now }
    ensures within { result ≤ length text.now }
{
    let mut reach = 0;
    for form in forms {
        reach = form_reach(form, text).max(reach);
    }
    reach
}

/// The column, counted from 1, at which a line leaves the grammar.
pub fn column(line: &[u8]) -> u32
    requires { length line.now ≤ LONGEST_TEXT }
    ensures { IsColumn is_line line.now result }
{
    1 + line_reach(line) as u32
}
