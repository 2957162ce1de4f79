// The folder and the messages that a directive forwards.
ghost use Rattle.std.specs.Prelude.{◌≡◌, [], IfOk};
ghost use Rattle.std.specs.Str.{chars};
ghost use Rattle.draft_contents.specs.Forwards.{chosen_seen, folder_named, folder_word as folder_word_of, specs_or_current as specs_or_current_of};
ghost use Rattle.draft_contents.specs.Values.{AreValue, IsValueOf};
ghost use Rattle.mh_profile.specs.Reading.{entries_seen};

use crate::Forwarding;
use command_stages::{choose, numbers};
use folder_files::Refusal;
use mh_base::{Bytes, Duplicate, FolderFault, FolderName, List, MsgNum, NameList, Text, TextList};
use std::alloc::{AllocError, Global};
use step_plans::{CommandFault, Hand};
use told_folders::{listed, sequences_listed};

/// The word that names the folder, or else the stored name of the current one.
fn folder_word<'a>(forwarding: &'a Forwarding, word: &'a Option<Text>) -> &'a Text
    ensures { result.now ≡ folder_word_of forwarding.now word.now }
{
    match word {
        Some(word) => word,
        None => &forwarding.current,
    }
}

fn read_folder(alloc: Global, word: &Text) -> Result<FolderName, CommandFault>
    ensures { IsValueOf (folder_named word.now) result }
{
    match FolderName::read(alloc, word) {
        Ok(name) => Ok(name),
        Err(FolderFault::BadFolder) => Err(CommandFault::Refused(Refusal::BadFolder(word.duplicate(
            alloc,
        )?))),
        Err(FolderFault::Memory) => Err(CommandFault::Memory),
    }
}

/// The folder whose messages are forwarded.
pub(crate) fn forwarded_folder(
    alloc: Global,
    forwarding: &Forwarding,
    word: &Option<Text>,
) -> Result<FolderName, CommandFault>
    ensures { IsValueOf (folder_named (folder_word_of forwarding.now word.now)) result }
{
    read_folder(alloc, folder_word(forwarding, word))
}

fn current(alloc: Global) -> Result<TextList, AllocError>
    ensures { IfOk result (λ specs. specs ≡ specs_or_current_of []) }
{
    let mut specs = List::new(alloc);
    specs.push(Text::from_str(alloc, "cur")?)?;
    Ok(specs)
}

/// The words that choose messages; the current one where there are none.
pub(crate) fn specs_or_current(alloc: Global, specs: &TextList) -> Result<TextList, AllocError>
    ensures { IfOk result (λ words. words ≡ specs_or_current_of specs.now) }
{
    if specs.is_empty() {
        current(alloc)
    } else {
        specs.duplicate(alloc)
    }
}

/// The messages that the words choose.
pub(crate) fn chosen(
    alloc: Global,
    hand: &Hand,
    negation: &[u8],
    folder: &FolderName,
    specs: &TextList,
    names: &NameList,
    text: &Bytes,
) -> Result<Vec<MsgNum>, CommandFault>
    ensures { AreValue
        (chosen_seen negation.now folder.now specs.now names.now text.now (entries_seen hand.now.kept.context)) result }
{
    let listing = listed(alloc, names)?;
    let sequences = sequences_listed(alloc, hand, folder, text.as_slice(), &listing)?;
    let set = choose(alloc, specs, &listing, &sequences, negation)?;
    Ok(numbers(alloc, &set)?)
}
