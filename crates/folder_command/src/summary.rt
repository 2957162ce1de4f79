// The line that tells of a folder.
ghost use Rattle.std.specs.Prelude.{◌≡◌, ◌++◌, codes, decimal, IfOk, OnOk};
ghost use Rattle.mh_sequences.specs.Runs.{numbers_of};
ghost use Rattle.folder_command.specs.Summary.{counted, current_part, summary as summary_of, summary_by};

use itoa::Buffer;
use mh_base::{Bytes, MsgNum};
use mh_sequences::NumSet;
use std::alloc::{AllocError, Global};

fn put_number(line: &mut Bytes, n: u64) -> Result<(), AllocError>
    ensures { OnOk result (line.new ≡ line.old ++ decimal n) }
{
    let mut buffer = Buffer::new();
    line.extend(buffer.format(n).as_bytes())
}

/// So many messages.
fn put_count(line: &mut Bytes, count: u64) -> Result<(), AllocError>
    ensures { OnOk result (line.new ≡ line.old ++ counted count) }
{
    put_number(line, count)?;
    line.extend(if count == 1 {
        b" message"
    } else {
        b" messages"
    })
}

fn put_current(line: &mut Bytes, cur: Option<MsgNum>) -> Result<(), AllocError>
    ensures { OnOk result (line.new ≡ line.old ++ current_part cur) }
{
    match cur {
        None => Ok(()),
        Some(cur) => {
            line.extend(b"; cur=")?;
            put_number(line, u64::from(cur.get()))
        }
    }
}

/// From the least number to the greatest.
fn put_ends(line: &mut Bytes, least: MsgNum, greatest: MsgNum) -> Result<(), AllocError>
    ensures { OnOk result
        (line.new ≡ line.old ++ codes " (" ++ decimal least ++ codes "-" ++ decimal greatest ++ codes ")") }
{
    line.extend(b" (")?;
    put_number(line, u64::from(least.get()))?;
    line.extend(b"-")?;
    put_number(line, u64::from(greatest.get()))?;
    line.extend(b")")
}

fn empty_line(alloc: Global, name: &[u8]) -> Result<Bytes, AllocError>
    ensures { IfOk result (λ l. l ≡ name.now ++ codes "+ has no messages.\n") }
{
    let mut line = Bytes::from_slice(alloc, name)?;
    line.extend(b"+ has no messages.\n")?;
    Ok(line)
}

fn full_line(
    alloc: Global,
    name: &[u8],
    count: u64,
    least: MsgNum,
    greatest: MsgNum,
    cur: Option<MsgNum>,
) -> Result<Bytes, AllocError>
    ensures { IfOk result
        (λ l.
        l ≡ name.now ++ codes "+ has " ++ counted count ++ codes " (" ++ decimal least ++ codes "-"
        ++ decimal greatest ++ codes ")" ++ current_part cur ++ codes ".\n") }
{
    let mut line = Bytes::from_slice(alloc, name)?;
    line.extend(b"+ has ")?;
    put_count(&mut line, count)?;
    put_ends(&mut line, least, greatest)?;
    put_current(&mut line, cur)?;
    line.extend(b".\n")?;
    Ok(line)
}

fn line_by(
    alloc: Global,
    name: &[u8],
    count: u64,
    ends: (Option<MsgNum>, Option<MsgNum>),
    cur: Option<MsgNum>,
) -> Result<Bytes, AllocError>
    ensures { IfOk result (λ l. l ≡ summary_by name.now count ends.0 ends.1 cur) }
{
    match ends {
        (Some(least), Some(greatest)) => full_line(alloc, name, count, least, greatest, cur),
        _ => empty_line(alloc, name),
    }
}

/// The line of a folder with these messages.
#[tactic(auto, unfolding(crate::specs::Summary::summary))]
pub(crate) fn summary(
    alloc: Global,
    name: &[u8],
    listing: &NumSet,
    cur: Option<MsgNum>,
) -> Result<Bytes, AllocError>
    ensures { IfOk result (λ l. l ≡ summary_of name.now (numbers_of listing.now.runs) cur) }
{
    let count = listing.len();
    let ends = (listing.at(0), listing.at(count.saturating_sub(1)));
    line_by(alloc, name, count, ends, cur)
}
