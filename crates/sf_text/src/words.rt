ghost use Rattle.std.specs.Prelude.{◌≡◌, ◌<◌, ◌≤◌, [], ◌∷◌, ◌==◌, length, MatchOption, IfSome, option_copied, position};
ghost use Rattle.std.specs.Str.Lines.{strip_carriage_return};
ghost use Rattle.sf_grammar.specs.Words.{script_lines, begins_with, words, parts, parts_left, before, behind};

/// The first line of a script, and the script after it.
#[tactic(auto, using(crate::proofs::Cuts::lines_rules))]
pub fn next_line(script: &[u8]) -> Option<(&[u8], &[u8])>
    ensures cut { MatchOption result
        (script_lines script.now ≡ [])
        (λ cut. script_lines script.now ≡ cut.0.now ∷ script_lines cut.1.now) }
    ensures shorter { IfSome result (λ cut. length cut.1.now < length script.now) }
    ensures within { IfSome result (λ cut. length cut.0.now ≤ length script.now) }
{
    if script.is_empty() {
        return None;
    }
    match find(script, b'\n') {
        None => Some((script, &[])),
        Some(end) => {
            let (line, _) = script.split_at(end);
            let (_, rest) = script.split_at(end + 1);
            Some((without_carriage_return(line), rest))
        }
    }
}

/// The first part of a text, and the text after the separator that ends it, if one does.
#[tactic(auto, using(crate::proofs::Cuts::parts_rules))]
pub fn next_part(text: &[u8], separator: u8) -> (&[u8], Option<&[u8]>)
    ensures cut { parts separator text.now ≡ result.0.now ∷ parts_left separator (option_copied result.1) }
    ensures first { result.0.now ≡ before separator text.now }
    ensures rest { option_copied result.1 ≡ behind separator text.now }
    ensures shorter { IfSome result.1 (λ rest. length rest.now < length text.now) }
{
    match find(text, separator) {
        None => (text, None),
        Some(end) => {
            let (part, _) = text.split_at(end);
            let (_, rest) = text.split_at(end + 1);
            (part, Some(rest))
        }
    }
}

/// Whether the text's first byte is this one.
pub fn begins_with(text: &[u8], byte: u8) -> bool
    ensures { result ≡ begins_with byte text.now }
{
    match text.split_first() {
        None => false,
        Some((first, _)) => *first == byte,
    }
}

fn find(bytes: &[u8], byte: u8) -> Option<usize>
    ensures { result ≡ position (λ b. b == byte) bytes.now }
{
    bytes.iter().position(|b| *b == byte)
}

fn without_carriage_return(line: &[u8]) -> &[u8]
    ensures { result.now ≡ strip_carriage_return line.now }
{
    match line.len() {
        0 => line,
        length if line[length - 1] == b'\r' => &line[..length - 1],
        _ => line,
    }
}

/// The first word of a line, and the line after it.
pub fn next_word(line: &[u8]) -> Option<(&[u8], &[u8])>
    ensures cut { MatchOption result
        (words line.now ≡ [])
        (λ cut. words line.now ≡ cut.0.now ∷ words cut.1.now) }
    ensures shorter { IfSome result (λ cut. length cut.1.now < length line.now) }
{
    let mut rest = line;
    while let Some((first, others)) = rest.split_first() {
        if *first != b' ' {
            let end = find(rest, b' ').unwrap_or(rest.len());
            return Some(rest.split_at(end));
        }
        rest = others;
    }
    None
}
