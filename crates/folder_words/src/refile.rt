// What the words of `refile` say.
ghost use Rattle.std.specs.Prelude.{◌≡◌, ◌==◌, [], IfOk, OnOk, Ok, map};
ghost use Rattle.std.specs.Str.{chars};
ghost use Rattle.std.specs.String.{string_bytes};
ghost use Rattle.command_words.specs.Results.{IsSaid};
ghost use Rattle.folder_words.specs.RefileFolders.{AreNamed, IsNoted, IsSourceNoted, IsTargetNoted, IsValueNoted, IsWordNoted};
ghost use Rattle.folder_words.specs.declared.table.TheConstants.{SRC as SRC_AT};
ghost use Rattle.folder_words.specs.RefileWords.{refile_items, refile_said, targets, words_of};

use crate::table::{LINK, NOLINK, SRC, refile_table};
use command_words::{
    Ended, all_words, folder_word, last_choice, messages_or, read_folder, read_items, wrong_at,
};
use mh_base::{FolderName, List, Text, TextList, WordWhy};
use mh_profile::Entries;
use mh_words::{Item, ItemList};
use std::alloc::{AllocError, Global};
use step_plans::CommandFault;

/// The words of `refile`: the folder that messages leave, where they name it; the messages' names; the folder to which
/// messages go, and others; whether they are copied there and stay.
#[derive(Drop)]
pub struct RefileWords {
    pub source: Option<FolderName>,
    pub specs: TextList,
    pub target: FolderName,
    pub others: List<FolderName>,
    pub link: bool,
}

/// The folders that words name: the one that messages leave, the first to which they go, and the others.
#[derive(Drop)]
struct FoldersNamed {
    source: Option<FolderName>,
    target: Option<FolderName>,
    others: List<FolderName>,
}

/// Notes a folder to which messages go.
fn note_target(named: &mut FoldersNamed, name: FolderName) -> Result<(), AllocError>
    ensures { OnOk result (IsTargetNoted named.old name named.new) }
{
    if named.target.is_none() {
        named.target = Some(name);
        return Ok(());
    }
    named.others.push(name)
}

/// Notes the folder that messages leave.
fn note_source(alloc: Global, named: &mut FoldersNamed, word: &Text) -> Result<(), CommandFault>
    ensures { IsSourceNoted named.old word.now named.new result }
{
    named.source = Some(read_folder(alloc, word)?);
    Ok(())
}

/// Notes the folder of a word to which messages go.
fn note_word(alloc: Global, named: &mut FoldersNamed, word: &Text) -> Result<(), CommandFault>
    ensures { IsWordNoted named.old word.now named.new result }
{
    let name = read_folder(alloc, word)?;
    note_target(named, name)?;
    Ok(())
}

/// Notes the value of a switch, where that is the one of the source.
fn note_value(
    alloc: Global,
    named: &mut FoldersNamed,
    index: u64,
    value: &Text,
) -> Result<(), CommandFault>
    ensures { IsValueNoted (index == SRC_AT) named.old value.now named.new result }
{
    if index == SRC {
        note_source(alloc, named, value)
    } else {
        Ok(())
    }
}

/// Notes what one item more names.
fn note(alloc: Global, named: &mut FoldersNamed, item: &Item) -> Result<(), CommandFault>
    ensures { IsNoted named.old item.now named.new result }
{
    match item {
        Item::Folder { text, .. } => note_word(alloc, named, text),
        Item::Switch {
            index,
            value: Some(value),
            ..
        } => note_value(alloc, named, *index, value),
        _ => Ok(()),
    }
}

/// The folders that the items name, or the refusal of the first word that names none.
fn folders_named(alloc: Global, items: &ItemList) -> Result<FoldersNamed, CommandFault>
    ensures { AreNamed items.now result }
{
    let mut named = FoldersNamed {
        source: None,
        target: None,
        others: List::new(alloc),
    };
    for item in items.as_slice() {
        note(alloc, &mut named, item)?;
    }
    Ok(named)
}

#[tactic(auto, using(command_words::proofs::Texts::chars_cur))]
fn words_said(
    alloc: Global,
    items: &ItemList,
    source: Option<FolderName>,
    target: FolderName,
    others: List<FolderName>,
) -> Result<RefileWords, AllocError>
    ensures { IfOk result (λ words. words ≡ words_of source target others items.now) }
{
    Ok(RefileWords {
        source,
        specs: messages_or(alloc, "cur", items)?,
        target,
        others,
        link: last_choice(LINK, NOLINK, items).unwrap_or(false),
    })
}

/// What the items say, of which one at least is a folder.
fn targets_said(alloc: Global, words: &TextList, items: &ItemList) -> Result<RefileWords, Ended>
    requires { targets items.now ≡ [] → ⊥ }
    ensures { IsSaid (refile_items words.now items.now) result }
{
    let FoldersNamed {
        source,
        target,
        others,
    } = folders_named(alloc, items)?;
    match target {
        Some(target) => Ok(words_said(alloc, items, source, target, others)?),
        None => Err(wrong_at(alloc, words, words.len() as u64, WordWhy::Missing)?),
    }
}

/// What the items of the words say.
fn items_said(alloc: Global, words: &TextList, items: &ItemList) -> Result<RefileWords, Ended>
    ensures { IsSaid (refile_items words.now items.now) result }
{
    match folder_word(items) {
        Ok(None) => Err(wrong_at(alloc, words, words.len() as u64, WordWhy::Missing)?),
        Ok(Some(_)) => targets_said(alloc, words, items),
        Err(_) => targets_said(alloc, words, items),
    }
}

/// What the words of `refile` say, those of the profile first.
pub fn refile_words(
    alloc: Global,
    profile: &Entries,
    words: &[String],
) -> Result<RefileWords, Ended>
    ensures { IsSaid (refile_said profile.now (map chars (map string_bytes words.now))) result }
{
    let table = refile_table(alloc)?;
    let all = all_words(alloc, profile, b"refile", words)?;
    let items = read_items(alloc, &table, &all)?;
    items_said(alloc, &all, &items)
}
