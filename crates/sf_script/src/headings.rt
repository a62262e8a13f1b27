ghost use Rattle.std.specs.Prelude.{◌≡◌, IsTrue, SomeIff, option_copied, Some, MatchOption, MatchResult};
ghost use Rattle.sf_script.specs.Headings.{setting_of, ring_of, opens, enters, are_distinct, is_limit, limit_entered, limited, noted};

use crate::fault::LineFault;
use crate::heads::{Heads, Setting};
use sf_field::Modulus;
use sf_matrix::Name;
use sf_text::Ring;

/// What is settled with the ring, where it was given.
pub fn setting_of(heads: &Heads) -> Option<&Setting>
    ensures { option_copied result ≡ setting_of heads.now }
{
    match heads {
        Heads::Within(setting) => Some(setting),
        _ => None,
    }
}

/// The ring, where it was given.
pub fn ring_of(heads: &Heads) -> Option<&Ring>
    ensures { option_copied result ≡ ring_of heads.now }
{
    match heads {
        Heads::Within(setting) => Some(&setting.ring),
        _ => None,
    }
}

/// Whether the version is the first heading, and is 1.
pub fn can_open(heads: &Heads, version: i32) -> bool
    ensures { result ≡ opens heads.now version }
{
    match heads {
        Heads::Unopened => version == 1,
        _ => false,
    }
}

/// The modulus of a ring, where the ring is the second heading, its modulus is in the table and it
/// has at most six variables, no two equal.
pub fn entered_modulus(heads: &Heads, modulus: u64, names: &[Name]) -> Option<Modulus>
    ensures { SomeIff result (IsTrue (enters heads.now modulus names.now)) modulus }
{
    match heads {
        Heads::Opened => {
            if names.len() <= 6 && are_distinct(names) {
                Modulus::from_number(modulus)
            } else {
                None
            }
        }
        _ => None,
    }
}

fn are_distinct(names: &[Name]) -> bool
    ensures { result ≡ are_distinct names.now }
{
    match names.split_first() {
        None => true,
        Some((name, others)) => !others.contains(name) && are_distinct(others),
    }
}

/// The limit that is given, from 1 to 60, or the first reason to refuse it.
pub fn entered_limit(heads: &Heads, limit: i32) -> Result<u32, LineFault>
    ensures { result ≡ limit_entered heads.now limit }
{
    match heads {
        Heads::Within(setting) if !setting.limited && !setting.noted => {
            if 1 <= limit && limit <= 60 {
                Ok(limit.unsigned_abs())
            } else {
                Err(LineFault::Range)
            }
        }
        _ => Err(LineFault::Ring),
    }
}

/// Sets the limit.
pub fn set_limit(heads: &mut Heads, limit: u32)
    ensures { heads.new ≡ limited limit heads.old }
{
    if let Heads::Within(setting) = heads {
        setting.limit = limit;
        setting.limited = true;
    }
}

/// Notes a line with a reply that isn't a `limit` line.
pub fn note(heads: &mut Heads)
    ensures { heads.new ≡ noted heads.old }
{
    if let Heads::Within(setting) = heads {
        setting.noted = true;
    }
}
