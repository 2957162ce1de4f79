// Sequences as text.
ghost use Rattle.std.specs.Prelude.{◌≡◌, ◌++◌, ◌∷◌, [], ℕ, List, Option, decimal, map, filter, codes, IfOk, IfSome, OnOk};
ghost use Rattle.std.specs.List.{flat_map};
ghost use Rattle.mh_base.specs.Numbers.{IsMsgNum};
ghost use Rattle.mh_profile.specs.declared.named_value.NamedValue.{NamedValue as EntryValue};
ghost use Rattle.mh_profile.specs.Printing.{printed, printed_entry};
ghost use Rattle.mh_sequences.specs.declared.run.Run.{Run as RunValue};
ghost use Rattle.mh_sequences.specs.Printing.{cur_entry, entry_of, is_before_cur as stands_before_cur, is_private as stands_in_context, is_shown as stands_in_text, list_text, private_entries, private_entry as private_entry_of, run_text};
ghost use Rattle.mh_sequences.specs.Reading.{attribute};
ghost use Rattle.mh_sequences.specs.Sequences.{told_entry};

use crate::user_map::UserMap;
use crate::{NumSet, Run, SeqName, UserSequence};
use itoa::Buffer;
use mh_base::{Bytes, List, MsgNum};
use mh_profile::{EntryList, NamedValue};
use std::alloc::{AllocError, Global};
use std::cmp::Ordering;

fn put_number(text: &mut Bytes, n: MsgNum) -> Result<(), AllocError>
    ensures { OnOk result (text.new ≡ text.old ++ decimal n) }
{
    let mut buffer = Buffer::new();
    text.extend(buffer.format(n.get()).as_bytes())
}

fn put_run(text: &mut Bytes, run: &Run) -> Result<(), AllocError>
    ensures { OnOk result (text.new ≡ text.old ++ run_text run.now) }
{
    put_number(text, run.from)?;
    if run.from.get() == run.to.get() {
        return Ok(());
    }
    text.extend(b"-")?;
    put_number(text, run.to)
}

/// Writes each run behind a space.
fn put_runs(text: &mut Bytes, runs: &[Run]) -> Result<(), AllocError>
    ensures { OnOk result (text.new ≡ text.old ++ flat_map (λ r. 32 ∷ run_text r) runs.now) }
{
    for run in runs {
        text.extend(b" ")?;
        put_run(text, run)?;
    }
    Ok(())
}

fn list_of(alloc: Global, runs: &[Run]) -> Result<Bytes, AllocError>
    ensures { IfOk result (λ b. b ≡ list_text runs.now) }
{
    let mut text = Bytes::new(alloc);
    let Some((first, others)) = runs.split_first() else {
        return Ok(text);
    };
    put_run(&mut text, first)?;
    put_runs(&mut text, others)?;
    Ok(text)
}

impl NumSet {
    /// The numbers as a list: ascending, with one space between, and two or more consecutive ones as their first and
    /// last with a dash between.
    pub fn list(&self, alloc: Global) -> Result<Bytes, AllocError>
        ensures { IfOk result (λ b. b ≡ list_text self.now.runs) }
    {
        list_of(alloc, self.as_slice())
    }
}

fn put_line(text: &mut Bytes, name: &[u8], list: &[u8]) -> Result<(), AllocError>
    ensures { OnOk result (text.new ≡ text.old ++ printed_entry (record { name = name.now; value = list.now })) }
{
    text.extend(name)?;
    text.extend(b": ")?;
    text.extend(list)?;
    text.extend(b"\n")
}

fn is_before_cur(name: &[u8]) -> bool
    ensures { result ≡ stands_before_cur name.now }
{
    name.cmp(&b"cur".as_slice()) == Ordering::Less
}

fn is_shown(name: &SeqName, public: bool, before: bool) -> bool
    ensures { (runs : List RunValue)
        → result ≡ stands_in_text before (record { name = name.now; runs = runs; public = public }) }
{
    if before {
        public && is_before_cur(name.bytes())
    } else {
        public && !is_before_cur(name.bytes())
    }
}

fn put_user(
    alloc: Global,
    text: &mut Bytes,
    name: &SeqName,
    user: &UserSequence,
    before: bool,
) -> Result<(), AllocError>
    ensures { OnOk result
        (text.new ≡ text.old
        ++ printed (map entry_of (filter (stands_in_text before) (told_entry (name.now, user.now) ∷ [])))) }
{
    if !is_shown(name, user.public, before) {
        return Ok(());
    }
    let list = list_of(alloc, user.numbers.as_slice())?;
    put_line(text, name.bytes(), list.as_slice())
}

/// Writes the lines of the public sequences before `cur`, or behind it.
pub(crate) fn put_lines(
    alloc: Global,
    text: &mut Bytes,
    users: &UserMap,
    before: bool,
) -> Result<(), AllocError>
    ensures { OnOk result
        (text.new ≡ text.old
        ++ printed (map entry_of (filter (stands_in_text before) (map told_entry users.now.entries)))) }
{
    for (name, user) in users {
        put_user(alloc, text, name, user, before)?;
    }
    Ok(())
}

pub(crate) fn put_cur(
    alloc: Global,
    text: &mut Bytes,
    cur: Option<MsgNum>,
) -> Result<(), AllocError>
    ensures text { OnOk result (text.new ≡ text.old ++ printed (cur_entry cur)) }
    ensures range { OnOk result (IfSome cur IsMsgNum) }
{
    match cur {
        Some(n) => {
            let mut list = Bytes::new(alloc);
            put_number(&mut list, n)?;
            put_line(text, b"cur", list.as_slice())
        }
        None => Ok(()),
    }
}

fn attribute_of(alloc: Global, name: &[u8], ending: &[u8]) -> Result<Bytes, AllocError>
    ensures { IfOk result (λ b. b ≡ attribute ending.now name.now) }
{
    let mut text = Bytes::from_slice(alloc, b"atr-")?;
    text.extend(name)?;
    text.extend(ending)?;
    Ok(text)
}

fn private_entry(
    alloc: Global,
    name: &SeqName,
    user: &UserSequence,
    ending: &[u8],
) -> Result<NamedValue, AllocError>
    ensures { IfOk result (λ e. e ≡ private_entry_of ending.now (told_entry (name.now, user.now))) }
{
    Ok(NamedValue {
        name: attribute_of(alloc, name.bytes(), ending)?,
        value: list_of(alloc, user.numbers.as_slice())?,
    })
}

fn push_private(
    alloc: Global,
    entries: &mut EntryList,
    name: &SeqName,
    user: &UserSequence,
    ending: &[u8],
) -> Result<(), AllocError>
    ensures { OnOk result
        (entries.new ≡ entries.old ++ private_entries ending.now (told_entry (name.now, user.now) ∷ [])) }
{
    if user.public {
        return Ok(());
    }
    entries.push(private_entry(alloc, name, user, ending)?)
}

/// The entries of the private sequences.
pub(crate) fn private_list(
    alloc: Global,
    users: &UserMap,
    ending: &[u8],
) -> Result<EntryList, AllocError>
    ensures { IfOk result (λ es. es ≡ private_entries ending.now (map told_entry users.now.entries)) }
{
    let mut entries = List::new(alloc);
    for (name, user) in users {
        push_private(alloc, &mut entries, name, user, ending)?;
    }
    Ok(entries)
}
