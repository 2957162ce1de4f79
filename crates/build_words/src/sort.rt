// What a word is to a command that has no switches and takes the lone dash as a name.
ghost use Rattle.std.specs.Prelude.{◌≡◌, ◌++◌, IfOk, OnOk};
ghost use Rattle.command_words.specs.BadValues.{first_of, second_of};
ghost use Rattle.build_words.specs.Sorts.{is_folder as is_folder_of, is_of as is_of_value, is_switch as is_switch_of, least as least_of, place_if, places as places_of};

use mh_base::{List, NumberList, Text, TextList};
use std::alloc::{AllocError, Global};

/// A switch, by the dash before it; a folder, by its plus sign; or a name.
#[derive(Clone, Copy)]
pub(crate) enum Sort {
    Switch,
    Folder,
    Name,
}

fn is_switch(word: &[u8]) -> bool
    ensures { result ≡ is_switch_of word.now }
{
    match word {
        [first, _, ..] => *first == b'-',
        _ => false,
    }
}

fn is_folder(word: &[u8]) -> bool
    ensures { result ≡ is_folder_of word.now }
{
    match word {
        [first, ..] => *first == b'+',
        _ => false,
    }
}

fn is_of(sort: Sort, word: &Text) -> bool
    ensures { result ≡ is_of_value sort word.now }
{
    let bytes = word.as_str().as_bytes();
    match sort {
        Sort::Switch => is_switch(bytes),
        Sort::Folder => is_folder(bytes),
        Sort::Name => !is_switch(bytes) && !is_folder(bytes),
    }
}

fn push_place(found: &mut NumberList, sort: Sort, place: u64, word: &Text) -> Result<(), AllocError>
    ensures { OnOk result (found.new ≡ found.old ++ place_if (is_of_value sort word.now) place) }
{
    if is_of(sort, word) {
        found.push(place)
    } else {
        Ok(())
    }
}

/// The places of the words of this sort.
pub(crate) fn places(alloc: Global, words: &TextList, sort: Sort) -> Result<NumberList, AllocError>
    ensures { IfOk result (λ found. found ≡ places_of sort 0 words.now) }
{
    let mut found = List::new(alloc);
    for (place, word) in words.as_slice().iter().enumerate() {
        push_place(&mut found, sort, place as u64, word)?;
    }
    Ok(found)
}

pub(crate) fn first(places: &NumberList) -> Option<u64>
    ensures { result ≡ first_of places.now }
{
    match places.as_slice() {
        [first, ..] => Some(*first),
        _ => None,
    }
}

pub(crate) fn second(places: &NumberList) -> Option<u64>
    ensures { result ≡ second_of places.now }
{
    match places.as_slice() {
        [_, second, ..] => Some(*second),
        _ => None,
    }
}

/// The lesser of two places that may not be there.
pub(crate) fn least(one: Option<u64>, other: Option<u64>) -> Option<u64>
    ensures { result ≡ least_of one other }
{
    match one {
        Some(one) => match other {
            Some(other) => Some(one.min(other)),
            None => Some(one),
        },
        None => other,
    }
}
