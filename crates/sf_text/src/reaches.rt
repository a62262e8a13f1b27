ghost use Rattle.std.specs.Prelude.{◌≡◌, ◌≤◌, length};
ghost use Rattle.std.specs.Char.{is_ascii_digit};
ghost use Rattle.std.specs.List.{prefix_len};
ghost use Rattle.sf_grammar.specs.Words.{is_name_byte};
ghost use Rattle.sf_grammar.specs.WordReaches.{name_reach, digits_reach, number_reach, integer_reach, word_reach};

/// How far a text is a beginning of a name.
pub fn name_reach(text: &[u8]) -> usize
    ensures value { result ≡ name_reach text.now }
    ensures within { result ≤ length text.now }
{
    match text.split_first() {
        Some((first, others)) if first.is_ascii_alphabetic() => 1 + name_bytes(others).min(31),
        _ => 0,
    }
}

fn name_bytes(text: &[u8]) -> usize
    ensures value { result ≡ prefix_len is_name_byte text.now }
    ensures within { result ≤ length text.now }
{
    text.iter()
        .take_while(|byte| byte.is_ascii_alphanumeric() || **byte == b'_')
        .count()
}

/// How far a text is a beginning of a number of at most so many digits.
pub fn digits_reach(text: &[u8], most: usize) -> usize
    ensures value { result ≡ digits_reach most text.now }
    ensures within { result ≤ length text.now }
{
    digits(text).min(most)
}

fn digits(text: &[u8]) -> usize
    ensures value { result ≡ prefix_len is_ascii_digit text.now }
    ensures within { result ≤ length text.now }
{
    text.iter().take_while(|byte| byte.is_ascii_digit()).count()
}

/// How far a text is a beginning of a number.
pub fn number_reach(text: &[u8]) -> usize
    ensures value { result ≡ number_reach text.now }
    ensures within { result ≤ length text.now }
{
    digits_reach(text, 18)
}

/// How far a text is a beginning of an integer.
pub fn integer_reach(text: &[u8]) -> usize
    ensures value { result ≡ integer_reach text.now }
    ensures within { result ≤ length text.now }
{
    match text.split_first() {
        Some((b'-', digits)) => 1 + digits_reach(digits, 6),
        _ => digits_reach(text, 6),
    }
}

/// How far a text is a beginning of this word.
pub fn word_reach(text: &[u8], word: &[u8]) -> usize
    ensures value { result ≡ word_reach word.now text.now }
    ensures within { result ≤ length text.now }
{
    let mut reach = 0;
    let mut left = text;
    for byte in word {
        match left.split_first() {
            Some((first, rest)) if *first == *byte => {
                reach += 1;
                left = rest;
            }
            _ => return reach,
        }
    }
    reach
}
