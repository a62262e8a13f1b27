ghost use Rattle.std.specs.Prelude.{◌≡◌, ◌^◌, ◌<◌, length, SomeIff, IfSome, IfOk, IsTrue};
ghost use Rattle.std.specs.Char.{is_ascii_digit};
ghost use Rattle.std.specs.List.{list_all};
ghost use Rattle.sf_text.specs.Placed.{is_written_degree};
ghost use Rattle.sf_grammar.specs.Words.{is_name, is_name_byte, are_digits, is_number, number_value, is_integer, integer_value};

use sf_field::OutOfMemory;
use sf_matrix::Name;
use std::alloc::Global;
use std::str;

/// Whether the word is a name: a letter, and then at most 31 letters, digits and underscores.
pub fn is_name(word: &[u8]) -> bool
    ensures { result ≡ is_name word.now }
{
    match word.split_first() {
        None => false,
        Some((first, others)) => {
            first.is_ascii_alphabetic() && others.len() <= 31 && are_name_bytes(others)
        }
    }
}

fn are_name_bytes(bytes: &[u8]) -> bool
    ensures { result ≡ list_all is_name_byte bytes.now }
{
    bytes
        .iter()
        .all(|byte| byte.is_ascii_alphanumeric() || *byte == b'_')
}

/// The value of a number of 1 to 18 digits.
pub fn read_number(word: &[u8]) -> Option<u64>
    ensures { SomeIff result (IsTrue (is_number word.now)) (number_value word.now) }
{
    if are_digits(word, 18) {
        Some(digits_value(word))
    } else {
        None
    }
}

/// The value of an integer: 1 to 6 digits, which a minus may precede.
pub fn read_integer(word: &[u8]) -> Option<i32>
    ensures value { SomeIff result (IsTrue (is_integer word.now)) (integer_value word.now) }
    ensures written { IfSome result (λ z. IsTrue (is_written_degree z)) }
{
    match word.split_first() {
        Some((b'-', digits)) => {
            if are_digits(digits, 6) {
                Some(-(digits_value(digits) as i32))
            } else {
                None
            }
        }
        _ => {
            if are_digits(word, 6) {
                Some(digits_value(word) as i32)
            } else {
                None
            }
        }
    }
}

pub fn are_digits(word: &[u8], most: usize) -> bool
    ensures { result ≡ are_digits most word.now }
{
    !word.is_empty() && word.len() <= most && all_digits(word)
}

fn all_digits(word: &[u8]) -> bool
    ensures { result ≡ list_all is_ascii_digit word.now }
{
    word.iter().all(|byte| byte.is_ascii_digit())
}

pub fn digits_value(word: &[u8]) -> u64
    requires { IsTrue (are_digits 18 word.now) }
    ensures value { result ≡ number_value word.now }
    ensures bound { result < 10 ^ length word.now }
{
    let mut value = 0;
    for byte in word {
        value = 10 * value + u64::from(*byte - b'0');
    }
    value
}

/// The name that a word is.
pub fn make_name(alloc: Global, word: &[u8]) -> Result<Name, OutOfMemory>
    requires { IsTrue (is_name word.now) }
    ensures { IfOk result (λ name. name ≡ word.now) }
{
    match str::from_utf8(word) {
        Ok(text) => Name::from_text(alloc, text),
        Err(_) => unreachable!(),
    }
}
