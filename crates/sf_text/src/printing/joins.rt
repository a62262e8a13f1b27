ghost use Rattle.std.specs.Prelude.{◌≡◌, ◌++◌, OnOk};
ghost use Rattle.sf_text.specs.Joins.{separator_after};

use sf_field::OutOfMemory;

/// Writes the separator, where an item stands before.
pub fn separate(text: &mut Vec<u8>, follows: bool, separator: u8) -> Result<(), OutOfMemory>
    ensures ok { OnOk result (text.new.items
        ≡ text.old.items ++ separator_after follows separator) }
{
    if follows {
        text.push(separator)?;
    }
    Ok(())
}
