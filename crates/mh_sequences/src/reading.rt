// What a folder's text and the context say.
ghost use Rattle.std.specs.Prelude.{◌≡◌, ◌≤◌, ◌<◌, ◌&&◌, ◌||◌, ◌++◌, ℕ, List, [], bytes_eq, map, IsTrue, IfOk, OnOk, None, Some, codes, length};
ghost use Rattle.std.specs.List.{All};
ghost use Rattle.mail_headers.specs.Fields.{FieldText, fields_of};
ghost use Rattle.mail_headers.specs.Unfolding.{unfolded};
ghost use Rattle.mh_profile.specs.Validity.{AreEntries};
ghost use Rattle.mh_sequences.specs.Mentions.{AreNoted, IsMention, IsMentioned};
ghost use Rattle.mh_sequences.specs.Names.{is_seq_name};
ghost use Rattle.mh_sequences.specs.Reading.{cur_in, suffix, AreBothParts, IsContextNoted, IsEntryAt, IsEntryNoted, IsPlaceNoted, IsPrivateName, IsPublicPart};
ghost use Rattle.mh_sequences.specs.Runs.{has};
ghost use Rattle.mh_sequences.specs.Sequences.{told};

use crate::NumSet;
use crate::escape::suffix_of;
use crate::field_names::FieldNames;
use crate::gathering::gather;
use crate::lists::{first_item, read_list};
use crate::mention::Mention;
use crate::seq_name::is_name;
use crate::user::User;
use mail_headers::{Field, Message, unfold};
use mh_base::{FolderName, List, MsgNum};
use mh_profile::Entries;
use std::alloc::{AllocError, Global};

/// Notes the runs of a set under a name.
fn note_runs<'a>(
    mentions: &mut List<Mention<'a>>,
    name: &'a [u8],
    numbers: &NumSet,
) -> Result<(), AllocError>
    requires name { IsTrue (is_seq_name name.now) }
    requires mentions { All IsMention mentions.old }
    ensures { OnOk result (AreNoted name.now numbers.now.runs mentions.old mentions.new) }
{
    for run in numbers.as_slice() {
        mentions.push(Mention { name, run: *run })?;
    }
    Ok(())
}

/// Notes the runs of a list under a name, where it is a sequence's.
fn note<'a>(
    alloc: Global,
    mentions: &mut List<Mention<'a>>,
    name: &'a [u8],
    list: &[u8],
) -> Result<(), AllocError>
    requires { All IsMention mentions.old }
    ensures { OnOk result (IsMentioned name.now list.now mentions.old mentions.new) }
{
    if !is_name(name) {
        return Ok(());
    }
    let numbers = read_list(alloc, list)?;
    note_runs(mentions, name, &numbers)
}

fn note_field<'a>(
    alloc: Global,
    mentions: &mut List<Mention<'a>>,
    field: Field<'a>,
) -> Result<(), AllocError>
    requires { All IsMention mentions.old }
    ensures { OnOk result
        (IsMentioned field.entry.name.now (unfolded field.entry.value.now) mentions.old mentions.new) }
{
    let list = unfold(alloc, field.value)?;
    note(alloc, mentions, field.name, list.as_slice())
}

/// Notes what a folder's text gives its sequences.
fn note_public<'a>(
    alloc: Global,
    mentions: &mut List<Mention<'a>>,
    text: &'a [u8],
) -> Result<(), AllocError>
    requires { mentions.old ≡ [] }
    ensures { OnOk result (IsPublicPart (fields_of text.now) mentions.new) }
{
    for field in Message::cut(text).fields() {
        note_field(alloc, mentions, field)?;
    }
    Ok(())
}

/// What stands between `atr-` and the ending.
fn private_name<'a>(name: &'a [u8], ending: &[u8]) -> Option<&'a [u8]>
    ensures { IsPrivateName name.now ending.now result }
{
    let Some(rest) = name.strip_prefix(b"atr-".as_slice()) else {
        return None;
    };
    match rest.strip_suffix(ending) {
        Some(inner) => Some(inner),
        None => None,
    }
}

/// The name and the value at a place of the context.
fn entry_at(context: &Entries, index: u64) -> Result<Option<(&[u8], &[u8])>, AllocError>
    requires { AreEntries context.now }
    ensures { IfOk result (λ found. IsEntryAt context.now index found) }
{
    let Some(name) = context.name_at(index) else {
        return Ok(None);
    };
    match context.get(name.as_slice())? {
        Some(value) => Ok(Some((name.as_slice(), value.as_slice()))),
        None => Ok(None),
    }
}

/// The current message of a folder's text.
pub(crate) fn read_cur(alloc: Global, text: &[u8]) -> Result<Option<MsgNum>, AllocError>
    ensures { IfOk result (λ cur. cur ≡ cur_in (fields_of text.now)) }
{
    for field in Message::cut(text).fields() {
        if field.name == b"cur".as_slice() {
            let list = unfold(alloc, field.value)?;
            if let Some(item) = first_item(list.as_slice()) {
                return Ok(MsgNum::read(item));
            }
        }
    }
    Ok(None)
}

/// Notes an entry of the context, where it is a private sequence's of the folder.
fn note_entry<'a>(
    alloc: Global,
    mentions: &mut List<Mention<'a>>,
    name: &'a [u8],
    list: &[u8],
    ending: &[u8],
) -> Result<(), AllocError>
    requires { All IsMention mentions.old }
    ensures { OnOk result (IsEntryNoted name.now list.now ending.now mentions.old mentions.new) }
{
    match private_name(name, ending) {
        Some(name) => note(alloc, mentions, name, list),
        None => Ok(()),
    }
}

/// Notes the entry at a place of the context.
fn note_at<'a>(
    alloc: Global,
    mentions: &mut List<Mention<'a>>,
    context: &'a Entries,
    index: u64,
    ending: &[u8],
) -> Result<(), AllocError>
    requires mentions { All IsMention mentions.old }
    requires valid { AreEntries context.now }
    requires within { index < length context.now }
    ensures { OnOk result (IsPlaceNoted context.now index ending.now mentions.old mentions.new) }
{
    match entry_at(context, index)? {
        Some((name, list)) => note_entry(alloc, mentions, name, list, ending),
        None => Ok(()),
    }
}

/// Notes what the context gives the private sequences of a folder, besides what its text gave.
fn note_private<'a>(
    alloc: Global,
    mentions: &mut List<Mention<'a>>,
    context: &'a Entries,
    ending: &[u8],
) -> Result<(), AllocError>
    requires { All IsMention mentions.old }
    ensures { OnOk result (IsContextNoted context.now ending.now mentions.old mentions.new) }
{
    for index in 0..context.len() {
        note_at(alloc, mentions, context, index, ending)?;
    }
    Ok(())
}

/// The sequences of a folder's text and of the context.
pub(crate) fn read_users(
    alloc: Global,
    text: &[u8],
    context: &Entries,
    folder: &FolderName,
) -> Result<Vec<User>, AllocError>
    ensures { IfOk result
        (λ users. AreBothParts (fields_of text.now) context.now (suffix folder.now) (map told users.items)) }
{
    let mut mentions = List::new(alloc);
    note_public(alloc, &mut mentions, text)?;
    let ending = suffix_of(alloc, folder)?;
    note_private(alloc, &mut mentions, context, ending.as_slice())?;
    let names = FieldNames::of(alloc, text)?;
    gather(alloc, mentions, &names)
}
