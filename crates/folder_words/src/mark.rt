// What the words of `mark` say.
ghost use Rattle.std.specs.Prelude.{◌≡◌, IfOk, Ok, map, option_map};
ghost use Rattle.std.specs.Str.{chars};
ghost use Rattle.std.specs.String.{string_bytes};
ghost use Rattle.folder_words.specs.MarkWords.{adding as adding_of, deleting as deleting_of, act_by as act_by_of, adds_by_default as adds_by_default_of, act_of, specs_of, lacks_sequence as lacks_sequence_of, words_of, word_said as word_said_of, mark_items, mark_said};
ghost use Rattle.command_words.specs.Results.{IsSaid};

use crate::table::{ADD, DELETE, LIST, NOPUBLIC, NOZERO, PUBLIC, SEQUENCE, ZERO, mark_table};
use command_words::{
    Ended, all_words, folder_said, folder_word, is_given, last_choice, messages, messages_or,
    read_items, sequence_names, values, wrong_at,
};
use mark_command::MarkAct;
use mh_base::{FolderName, Text, TextList, WordWhy};
use mh_profile::Entries;
use mh_sequences::SeqNameList;
use mh_words::ItemList;
use std::alloc::{AllocError, Global};

/// The words of `mark`: the folder, where they name one; the messages' names; the sequences; what is done to them, or
/// nothing where they are listed alone; whether they are listed; and whether they become public or private, where that
/// is said.
#[derive(Drop)]
pub struct MarkWords {
    pub folder: Option<FolderName>,
    pub specs: TextList,
    pub names: SeqNameList,
    pub act: Option<MarkAct>,
    pub list: bool,
    pub public: Option<bool>,
}

/// Adds, and takes out what isn't chosen where that is asked for.
fn adding(zero: bool) -> MarkAct
    ensures { result ≡ adding_of zero }
{
    if zero { MarkAct::Set } else { MarkAct::Add }
}

/// Takes out, and adds what isn't chosen where that is asked for.
fn deleting(zero: bool) -> MarkAct
    ensures { result ≡ deleting_of zero }
{
    if zero {
        MarkAct::SetOthers
    } else {
        MarkAct::Delete
    }
}

fn act_by(added: Option<bool>, by_default: bool, zero: bool) -> Option<MarkAct>
    ensures { result ≡ act_by_of added by_default zero }
{
    match added {
        Some(true) => Some(adding(zero)),
        Some(false) => Some(deleting(zero)),
        None if by_default => Some(adding(zero)),
        None => None,
    }
}

/// Whether messages are added where the words say neither this nor that they are taken out.
fn adds_by_default(items: &ItemList) -> bool
    ensures { result ≡ adds_by_default_of items.now }
{
    is_given(SEQUENCE, items) && !is_given(LIST, items)
}

/// What is done to the sequences.
fn act(items: &ItemList) -> Option<MarkAct>
    ensures { result ≡ act_of items.now }
{
    let added = last_choice(ADD, DELETE, items);
    let zero = last_choice(ZERO, NOZERO, items).unwrap_or(false);
    act_by(added, adds_by_default(items), zero)
}

/// The messages' names; the current one where something is done to none that is named.
#[tactic(auto, using(command_words::proofs::Texts::chars_cur))]
fn specs(alloc: Global, act: Option<MarkAct>, items: &ItemList) -> Result<TextList, AllocError>
    ensures { IfOk result (λ words. words ≡ specs_of act items.now) }
{
    match act {
        Some(_) => messages_or(alloc, "cur", items),
        None => messages(alloc, items),
    }
}

fn words_said(
    alloc: Global,
    items: &ItemList,
    folder: Option<FolderName>,
    names: SeqNameList,
) -> Result<MarkWords, AllocError>
    ensures { IfOk result (λ words. words ≡ words_of folder names items.now) }
{
    let act = act(items);
    Ok(MarkWords {
        folder,
        specs: specs(alloc, act, items)?,
        names,
        act,
        list: is_given(LIST, items) || act.is_none(),
        public: last_choice(PUBLIC, NOPUBLIC, items),
    })
}

/// Whether a sequence has to be named, and none is.
fn lacks_sequence(items: &ItemList) -> bool
    ensures { result ≡ lacks_sequence_of items.now }
{
    (is_given(ADD, items) || is_given(DELETE, items)) && !is_given(SEQUENCE, items)
}

/// What the items say beside the folder's word.
fn word_said(
    alloc: Global,
    words: &TextList,
    items: &ItemList,
    word: Option<&Text>,
) -> Result<MarkWords, Ended>
    ensures { IsSaid (word_said_of words.now items.now (option_map (λ w. w.now) word.entry)) result }
{
    if lacks_sequence(items) {
        return Err(wrong_at(alloc, words, words.len() as u64, WordWhy::Missing)?);
    }
    let folder = folder_said(alloc, word)?;
    let names = sequence_names(alloc, &values(alloc, SEQUENCE, items)?)?;
    Ok(words_said(alloc, items, folder, names)?)
}

/// What the items of the words say.
fn items_said(alloc: Global, words: &TextList, items: &ItemList) -> Result<MarkWords, Ended>
    ensures { IsSaid (mark_items words.now items.now) result }
{
    match folder_word(items) {
        Ok(word) => word_said(alloc, words, items, word),
        Err(place) => Err(wrong_at(alloc, words, place, WordWhy::Extra)?),
    }
}

/// What the words of `mark` say, those of the profile first.
pub fn mark_words(alloc: Global, profile: &Entries, words: &[String]) -> Result<MarkWords, Ended>
    ensures { IsSaid (mark_said profile.now (map chars (map string_bytes words.now))) result }
{
    let table = mark_table(alloc)?;
    let all = all_words(alloc, profile, b"mark", words)?;
    let items = read_items(alloc, &table, &all)?;
    items_said(alloc, &all, &items)
}
