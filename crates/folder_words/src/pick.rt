// What the words of `pick` say.
ghost use Rattle.std.specs.Prelude.{◌≡◌, ◌++◌, IfOk, OnOk, Ok, map, option_map};
ghost use Rattle.std.specs.Str.{chars};
ghost use Rattle.std.specs.String.{string_bytes};
ghost use Rattle.mail_dates.specs.Clocks.{IsSetting};
ghost use Rattle.pick_expr.specs.Whole.{expr_in};
ghost use Rattle.command_words.specs.FolderWords.{folder_named};
ghost use Rattle.folder_words.specs.PickWords.{act_of, date_word as date_word_of, pick_items, marks_of, named_expr, pick_said, value_at, values_at as values_at_of, pick_in_folder, words_of};
ghost use Rattle.command_words.specs.Results.{IsNamed, IsSaid};
ghost use Rattle.command_words.specs.Saying.{said_unless_refused};

use crate::bad_name::bad_name;
use crate::table::{
    PICK_LIST, PICK_NOLIST, PICK_NOPUBLIC, PICK_NOZERO, PICK_PUBLIC, PICK_SEQUENCE, PICK_ZERO,
    pick_table,
};
use command_words::{
    Ended, all_words, folder_said, folder_word, last_choice, last_word, messages_or, read_items,
    sequence_names, values, wrong_at, wrong_earliest,
};
use folder_files::Refusal;
use mh_base::{Duplicate, FolderName, List, Text, TextList, WordWhy};
use mh_profile::Entries;
use mh_sequences::SeqNameList;
use mh_words::{Item, ItemList, Words};
use pick_expr::{Expr, ExprFault, read_expr};
use pick_plans::{PickAct, PickMarks};
use std::alloc::{AllocError, Global};
use step_plans::CommandFault;

/// The words of `pick`: the folder, where they name one; the messages' names; the expression; the sequences that those
/// of its messages come into, or none where nothing is marked; and whether they are listed.
#[derive(Drop)]
pub struct PickWords {
    pub folder: Option<FolderName>,
    pub specs: TextList,
    pub expr: Expr,
    pub marks: Option<PickMarks>,
    pub list: bool,
}

fn act(items: &ItemList) -> PickAct
    ensures { result ≡ act_of items.now }
{
    if last_choice(PICK_ZERO, PICK_NOZERO, items).unwrap_or(true) {
        PickAct::Set
    } else {
        PickAct::Add
    }
}

/// What is done to the sequences of these names, if there are any.
fn marks(names: SeqNameList, items: &ItemList) -> Option<PickMarks>
    ensures { result ≡ marks_of names items.now }
{
    if names.len() == 0 {
        return None;
    }
    Some(PickMarks {
        names,
        public: last_choice(PICK_PUBLIC, PICK_NOPUBLIC, items),
        act: act(items),
    })
}

#[tactic(auto, using(command_words::proofs::Texts::chars_all))]
fn words_said(
    alloc: Global,
    items: &ItemList,
    folder: Option<FolderName>,
    names: SeqNameList,
    expr: Expr,
) -> Result<PickWords, AllocError>
    ensures { IfOk result (λ words. words ≡ words_of folder names expr items.now) }
{
    let list = last_choice(PICK_LIST, PICK_NOLIST, items).unwrap_or(names.len() == 0);
    Ok(PickWords {
        folder,
        specs: messages_or(alloc, "all", items)?,
        expr,
        marks: marks(names, items),
        list,
    })
}

fn push_value(alloc: Global, at: u64, words: &mut TextList, item: &Item) -> Result<(), AllocError>
    ensures { OnOk result (words.new ≡ words.old ++ value_at at item.now) }
{
    match item {
        Item::Switch {
            value: Some(value),
            place,
            ..
        } => {
            if *place == at {
                words.push(value.duplicate(alloc)?)
            } else {
                Ok(())
            }
        }
        _ => Ok(()),
    }
}

/// The values at this place.
fn values_at(alloc: Global, at: u64, items: &ItemList) -> Result<TextList, AllocError>
    ensures { IfOk result (λ words. words ≡ values_at_of at items.now) }
{
    let mut words = List::new(alloc);
    for item in items.as_slice() {
        push_value(alloc, at, &mut words, item)?;
    }
    Ok(words)
}

/// The date that is named at this place.
fn date_word(alloc: Global, at: u64, items: &ItemList) -> Result<Text, AllocError>
    ensures { IfOk result (λ word. word ≡ date_word_of at items.now) }
{
    match last_word(alloc, &values_at(alloc, at, items)?)? {
        Some(word) => Ok(word),
        None => Ok(Text::new(alloc)),
    }
}

/// The expression that the words write.
fn expr(
    alloc: Global,
    words: &Words,
    moment: i64,
    offset_minutes: i32,
) -> Result<Expr, CommandFault>
    requires { IsSetting moment offset_minutes }
    ensures { IsNamed (named_expr words.now.items (expr_in moment offset_minutes words.now.items)) result }
{
    match read_expr(alloc, words, moment, offset_minutes) {
        Ok(expr) => Ok(expr),
        Err(ExprFault::BadExpr(place)) => { Err(CommandFault::Refused(Refusal::BadExpr { place })) }
        Err(ExprFault::BadDate(place)) => {
            let word = date_word(alloc, place, &words.items)?;
            Err(CommandFault::Refused(Refusal::BadDate(word)))
        }
        Err(ExprFault::Memory) => Err(CommandFault::Memory),
    }
}

/// What the words say beside the folder's word.
fn word_said(
    alloc: Global,
    words: &Words,
    word: Option<&Text>,
    moment: i64,
    offset_minutes: i32,
) -> Result<PickWords, Ended>
    requires { IsSetting moment offset_minutes }
    ensures { IsSaid
        (said_unless_refused (pick_in_folder moment offset_minutes words.now.items)
        (folder_named (option_map (λ w. w.now) word.entry))) result }
{
    let folder = folder_said(alloc, word)?;
    let names = sequence_names(alloc, &values(alloc, PICK_SEQUENCE, &words.items)?)?;
    let expr = expr(alloc, words, moment, offset_minutes)?;
    Ok(words_said(alloc, &words.items, folder, names, expr)?)
}

/// What the items of the words say.
fn items_said(
    alloc: Global,
    all: &TextList,
    words: &Words,
    moment: i64,
    offset_minutes: i32,
) -> Result<PickWords, Ended>
    requires { IsSetting moment offset_minutes }
    ensures { IsSaid (pick_items moment offset_minutes all.now words.now.items) result }
{
    let bad = bad_name(&words.items);
    match folder_word(&words.items) {
        Ok(word) => {
            if let Some(place) = bad {
                return Err(wrong_at(alloc, all, place, WordWhy::BadValue)?);
            }
            word_said(alloc, words, word, moment, offset_minutes)
        }
        Err(second) => Err(wrong_earliest(alloc, all, bad, second)?),
    }
}

/// What the words of `pick` say, those of the profile first. The dates of its expression are named at this moment, in
/// seconds from 1970-01-01 00:00:00 UTC, by a clock that is so many minutes ahead of UTC.
pub fn pick_words(
    alloc: Global,
    profile: &Entries,
    words: &[String],
    moment: i64,
    offset_minutes: i32,
) -> Result<PickWords, Ended>
    requires { IsSetting moment offset_minutes }
    ensures { IsSaid (pick_said moment offset_minutes profile.now (map chars (map string_bytes words.now))) result }
{
    let table = pick_table(alloc)?;
    let all = all_words(alloc, profile, b"pick", words)?;
    let items = read_items(alloc, &table, &all)?;
    items_said(alloc, &all, &Words { items }, moment, offset_minutes)
}
