// The lines that tell of sequences.
ghost use Rattle.std.specs.Prelude.{◌≡◌, ◌++◌, ◌∷◌, [], map, IfOk, OnOk};
ghost use Rattle.mh_sequences.specs.Printing.{is_before_cur as stands_before_cur, list_text};
ghost use Rattle.mh_sequences.specs.Sequences.{runs_of, told_entry};
ghost use Rattle.mh_sequences.specs.declared.user_sequence.UserSequence.{UserSequence as UserSequenceValue};
ghost use Rattle.mark_command.specs.Lines.{
  all_lines as all_lines_of,
  cur_line as cur_line_of,
  cur_lines,
  is_beside_cur as stands_beside_cur,
  line_of,
  lines_beside,
  lines_for,
  privacy as privacy_of,
  sequence_of,
  spaced,
};

use itoa::Buffer;
use mh_base::{Bytes, BytesList, List, MsgNum};
use mh_sequences::{SeqName, SeqNameList, Sequences, UserSequence};
use std::alloc::{AllocError, Global};
use std::cmp::Ordering;
use std::collections::btree_map;

fn privacy(public: bool) -> &'static [u8]
    ensures { result.now ≡ privacy_of public }
{
    if public { b"" } else { b" (private)" }
}

/// Writes a list behind a space, and nothing where it is empty.
fn put_spaced(line: &mut Bytes, list: &[u8]) -> Result<(), AllocError>
    ensures { OnOk result (line.new ≡ line.old ++ spaced list.now) }
{
    if list.is_empty() {
        Ok(())
    } else {
        line.extend(b" ")?;
        line.extend(list)
    }
}

/// The line of a sequence with this list of numbers.
#[tactic(auto, unfolding(crate::specs::Lines::line_of))]
fn line(alloc: Global, name: &SeqName, list: &[u8], public: bool) -> Result<Bytes, AllocError>
    ensures { IfOk result (λ l. l ≡ name.now ++ privacy_of public ++ 58 ∷ [] ++ spaced list.now ++ 10 ∷ []) }
{
    let mut line = Bytes::from_slice(alloc, name.bytes())?;
    line.extend(privacy(public))?;
    line.extend(b":")?;
    put_spaced(&mut line, list)?;
    line.extend(b"\n")?;
    Ok(line)
}

fn user_line(alloc: Global, name: &SeqName, user: &UserSequence) -> Result<Bytes, AllocError>
    ensures { IfOk result (λ l. l ≡ line_of (told_entry (name.now, user.now))) }
{
    let list = user.numbers.list(alloc)?;
    line(alloc, name, list.as_slice(), user.public)
}

/// The numbers of the sequence of this name; none where there is no such sequence.
fn named_list(alloc: Global, sequences: &Sequences, name: &SeqName) -> Result<Bytes, AllocError>
    ensures { IfOk result (λ list. list ≡ list_text (runs_of sequences.now.users name.now)) }
{
    match sequences.get(name) {
        Some(numbers) => numbers.list(alloc),
        None => Ok(Bytes::new(alloc)),
    }
}

fn named_line(alloc: Global, sequences: &Sequences, name: &SeqName) -> Result<Bytes, AllocError>
    ensures { IfOk result (λ l. l ≡ line_of (sequence_of sequences.now name.now)) }
{
    let list = named_list(alloc, sequences, name)?;
    line(alloc, name, list.as_slice(), sequences.is_public(name))
}

/// A line for each of these names.
fn named_lines(
    alloc: Global,
    sequences: &Sequences,
    names: &[SeqName],
) -> Result<BytesList, AllocError>
    ensures { IfOk result (λ ls. ls ≡ map (λ n. line_of (sequence_of sequences.now n)) names.now) }
{
    let mut lines = List::new(alloc);
    for name in names {
        lines.push(named_line(alloc, sequences, name)?)?;
    }
    Ok(lines)
}

fn is_before_cur(name: &[u8]) -> bool
    ensures { result ≡ stands_before_cur name.now }
{
    name.cmp(&b"cur".as_slice()) == Ordering::Less
}

/// Whether the sequence stands on this side of `cur`.
fn is_beside_cur(name: &SeqName, before: bool) -> bool
    ensures { (user : UserSequenceValue) → result ≡ stands_beside_cur before (told_entry (name.now, user)) }
{
    is_before_cur(name.bytes()) == before
}

fn push_beside(
    alloc: Global,
    lines: &mut BytesList,
    name: &SeqName,
    user: &UserSequence,
    before: bool,
) -> Result<(), AllocError>
    ensures { OnOk result (lines.new ≡ lines.old ++ lines_beside before (told_entry (name.now, user.now) ∷ [])) }
{
    if is_beside_cur(name, before) {
        lines.push(user_line(alloc, name, user)?)
    } else {
        Ok(())
    }
}

/// A line for each sequence on this side of `cur`.
fn push_all_beside(
    alloc: Global,
    lines: &mut BytesList,
    users: btree_map::Iter<'_, SeqName, UserSequence>,
    before: bool,
) -> Result<(), AllocError>
    ensures { OnOk result (lines.new ≡ lines.old ++ lines_beside before (map told_entry users.entry)) }
{
    for (name, user) in users {
        push_beside(alloc, lines, name, user, before)?;
    }
    Ok(())
}

#[tactic(auto, unfolding(crate::specs::Lines::cur_line))]
fn cur_line(alloc: Global, cur: MsgNum) -> Result<Bytes, AllocError>
    ensures { IfOk result (λ l. l ≡ cur_line_of cur) }
{
    let mut line = Bytes::from_slice(alloc, b"cur: ")?;
    let mut buffer = Buffer::new();
    line.extend(buffer.format(cur.get()).as_bytes())?;
    line.extend(b"\n")?;
    Ok(line)
}

fn push_cur(alloc: Global, lines: &mut BytesList, cur: Option<MsgNum>) -> Result<(), AllocError>
    ensures { OnOk result (lines.new ≡ lines.old ++ cur_lines cur) }
{
    match cur {
        Some(cur) => lines.push(cur_line(alloc, cur)?),
        None => Ok(()),
    }
}

/// A line for each sequence, with the current message among them.
fn all_lines(alloc: Global, sequences: &Sequences) -> Result<BytesList, AllocError>
    ensures { IfOk result (λ ls. ls ≡ all_lines_of sequences.now) }
{
    let mut lines = List::new(alloc);
    push_all_beside(alloc, &mut lines, sequences.users(), true)?;
    push_cur(alloc, &mut lines, sequences.cur())?;
    push_all_beside(alloc, &mut lines, sequences.users(), false)?;
    Ok(lines)
}

/// A line for each of these names, in their order, or where there are none for each sequence.
pub(crate) fn lines(
    alloc: Global,
    names: &SeqNameList,
    sequences: &Sequences,
) -> Result<BytesList, AllocError>
    ensures { IfOk result (λ ls. ls ≡ lines_for names.now sequences.now) }
{
    if names.is_empty() {
        all_lines(alloc, sequences)
    } else {
        named_lines(alloc, sequences, names.as_slice())
    }
}
