// The files that parts are stored in.
ghost use Rattle.std.specs.Prelude.{◌≡◌, ◌++◌, true, map, IfOk, OnOk};
ghost use Rattle.std.specs.List.{list_all};
ghost use Rattle.mh_base.specs.Names.{is_name_byte};
ghost use Rattle.mime_tree.specs.declared.part.Part.{out-Part};
ghost use Rattle.part_rows.specs.FileNames.{line_for, name_byte as byte_of_name, name_of, stays as byte_stays, whole_name};

use crate::paths::{put_dotted, put_number, put_path};
use mh_base::{Bytes, MsgNum, Name};
use mime_tree::Part;
use std::alloc::{AllocError, Global};

/// The longest name, in bytes.
const LIMIT: usize = 255;

/// A letter, a digit, a minus, a plus, a dot or an underscore.
fn stays(byte: u8) -> bool
    ensures { result ≡ byte_stays byte }
{
    byte.is_ascii_alphanumeric() || matches!(byte, b'-' | b'+' | b'.' | b'_')
}

/// What a name has for a byte of the subtype.
fn name_byte(byte: u8) -> u8
    ensures { result ≡ byte_of_name byte }
{
    if stays(byte) { byte } else { b'_' }
}

fn put_subtype(name: &mut Bytes, subtype: &[u8]) -> Result<(), AllocError>
    ensures { OnOk result (name.new ≡ name.old ++ map byte_of_name subtype.now) }
{
    for byte in subtype {
        name.extend(&[name_byte(*byte)])?;
    }
    Ok(())
}

/// The name, however long.
fn long_name(alloc: Global, number: MsgNum, part: &Part) -> Result<Bytes, AllocError>
    ensures value { IfOk result
        (λ name. name ≡ whole_name number (out-Part part.now).path (out-Part part.now).subtype) }
    ensures clean { IfOk result (λ name. list_all is_name_byte name ≡ true) }
{
    let mut name = Bytes::new(alloc);
    put_number(&mut name, u64::from(number.get()))?;
    put_dotted(&mut name, part.path.numbers().as_slice())?;
    name.extend(b".")?;
    put_subtype(&mut name, part.subtype.as_str().as_bytes())?;
    Ok(name)
}

/// The name of the file that a part of the message of this number is stored in.
pub fn file_name(alloc: Global, number: MsgNum, part: &Part) -> Result<Name, AllocError>
    ensures { IfOk result (λ name. name ≡ name_of number (out-Part part.now).path (out-Part part.now).subtype) }
{
    let whole = long_name(alloc, number, part)?;
    let (front, _) = whole.as_slice().split_at(LIMIT.min(whole.len()));
    Ok(Name::new(Bytes::from_slice(alloc, front)?).unwrap())
}

/// The line that says that a part of the message of this number is stored in the file of this name.
#[tactic(auto, unfolding(crate::specs::FileNames::line_for))]
pub fn storing_line(
    alloc: Global,
    number: MsgNum,
    part: &Part,
    name: &Name,
) -> Result<Bytes, AllocError>
    ensures { IfOk result (λ line. line ≡ line_for number (out-Part part.now).path name.now) }
{
    let mut line = Bytes::from_slice(alloc, b"storing message ")?;
    put_number(&mut line, u64::from(number.get()))?;
    line.extend(b" part ")?;
    put_path(&mut line, &part.path)?;
    line.extend(b" as file ")?;
    line.extend(name.bytes())?;
    line.extend(b"\n")?;
    Ok(line)
}
