// The text of an entry.
ghost use Rattle.std.specs.Prelude.{◌≡◌, ◌++◌, OnOk};
ghost use Rattle.mh_profile.specs.Printing.{printed_entry};

use crate::NamedValue;
use mh_base::Bytes;
use std::alloc::AllocError;

/// Writes `name: value` and a line feed behind the text.
pub(crate) fn put_entry(text: &mut Bytes, entry: &NamedValue) -> Result<(), AllocError>
    ensures { OnOk result (text.new ≡ text.old ++ printed_entry entry.now) }
{
    text.extend(entry.name.as_slice())?;
    text.extend(b": ")?;
    text.extend(entry.value.as_slice())?;
    text.extend(b"\n")
}
