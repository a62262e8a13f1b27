ghost use Rattle.std.specs.Prelude.{◌≡◌, ◌++◌, OnOk};
ghost use Rattle.sf_algebra.specs.Monomials.{exponents};
ghost use Rattle.sf_algebra.specs.Printing.{star, power_text, factor_texts, term_text};
ghost use Rattle.sf_text.specs.Joins.{joined_after};

use crate::printing::joins::separate;
use itoa::Buffer;
use sf_field::OutOfMemory;
use sf_matrix::Name;
use sf_mono::Mono;

/// How many variables a monomial has room for.
const VARIABLES: usize = 6;

/// Writes a term.
pub fn print_term(
    text: &mut Vec<u8>,
    names: &[Name],
    a: Mono,
    coefficient: u32,
) -> Result<(), OutOfMemory>
    ensures ok { OnOk result (text.new.items
        ≡ text.old.items ++ term_text names.now (record { at = a; coefficient = coefficient })) }
{
    if coefficient == 1 && a.sum() > 0 {
        return print_factors(text, names, a, false);
    }
    let mut buffer = Buffer::new();
    text.extend_from_slice(buffer.format(coefficient).as_bytes())?;
    print_factors(text, names, a, true)
}

/// Writes the factors of a monomial, behind a coefficient where one stands before.
fn print_factors(
    text: &mut Vec<u8>,
    names: &[Name],
    a: Mono,
    coefficient: bool,
) -> Result<(), OutOfMemory>
    ensures ok { OnOk result (text.new.items
        ≡ text.old.items ++ joined_after coefficient star (factor_texts names.now (exponents a))) }
{
    let mut follows = coefficient;
    for i in 0..names.len().min(VARIABLES) {
        let exponent = a.exponent(i);
        if exponent == 0 {
            continue;
        }
        separate(text, follows, b'*')?;
        print_power(text, &names[i], exponent)?;
        follows = true;
    }
    Ok(())
}

/// Writes a power of a variable, with no exponent where it is 1.
fn print_power(text: &mut Vec<u8>, name: &Name, exponent: u16) -> Result<(), OutOfMemory>
    ensures ok { OnOk result (text.new.items ≡ text.old.items ++ power_text name.now exponent) }
{
    text.extend_from_slice(name.as_str().as_bytes())?;
    if exponent == 1 {
        return Ok(());
    }
    let mut buffer = Buffer::new();
    text.push(b'^')?;
    text.extend_from_slice(buffer.format(exponent).as_bytes())?;
    Ok(())
}
