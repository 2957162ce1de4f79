// The words of a command line as items.
ghost use Rattle.std.specs.Prelude.{ℕ, List, ◌++◌, ◌≡◌, ◌<◌, ◌+◌, ◌^◌, length, All, IfOk, IfErr};
ghost use Rattle.std.specs.Str.{chars};
ghost use Rattle.mh_words.specs.Items.{IsItemOf};
ghost use Rattle.mh_words.specs.Lines.{IsWordAt, words_of};
ghost use Rattle.mh_words.specs.Readings.{Reads, Fails};
ghost use Rattle.mh_words.specs.Steps.{IsComponentStep, IsReading, IsStep, IsSwitchStep, IsValueAfter};
ghost use Rattle.mh_words.specs.Whole.{IsWhole, read_in};
ghost use Rattle.mh_words.specs.Outcomes.{IsFault, IsReadAs, IsRefusedAs};

use crate::fault::fault_at;
use crate::form::{Form, form_of};
use crate::line::{Line, word_at};
use crate::lookup::{Found, find_switch};
use crate::{Item, ItemList, Kind, SwitchTable, WordFault, WordWhy, Words};
use mh_base::{Duplicate, List, Text, TextList};
use std::alloc::Global;

/// An item, and the place after its word and its value.
#[derive(Drop)]
pub struct Taken {
    pub item: Item,
    pub next: usize,
}

/// The value of the word at this place: the word after it.
fn value_after(alloc: Global, line: &Line<'_>, place: usize) -> Result<Text, WordFault>
    requires inside { place < length (words_of line.now) }
    requires few { length (words_of line.now) < 2 ^ 64 }
    ensures value { IsValueAfter (words_of line.now) place result }
    ensures room { IfOk result (λ _. place + 1 < length (words_of line.now)) }
{
    match word_at(line, place + 1) {
        Some(value) => Ok(value.duplicate(alloc)?),
        None => Err(fault_at(place, WordWhy::NoValue)),
    }
}

/// Reads a component of this name at this place.
fn read_component(
    alloc: Global,
    line: &Line<'_>,
    place: usize,
    name: &str,
) -> Result<Taken, WordFault>
    requires inside { place < length (words_of line.now) }
    requires few { length (words_of line.now) < 2 ^ 64 }
    ensures step { IsComponentStep (words_of line.now) place (chars name.now) result }
    ensures on { IfOk result (λ taken. place < taken.next) }
{
    let value = value_after(alloc, line, place)?;
    let name = Text::from_str(alloc, name)?;
    Ok(Taken {
        item: Item::Component {
            name,
            value,
            place: place as u64,
        },
        next: place + 2,
    })
}

/// Reads a switch word of this name at this place.
fn read_switch(
    alloc: Global,
    table: &SwitchTable,
    line: &Line<'_>,
    place: usize,
    name: &str,
) -> Result<Taken, WordFault>
    requires inside { place < length (words_of line.now) }
    requires few { length (words_of line.now) < 2 ^ 64 }
    ensures step { IsSwitchStep table.now (words_of line.now) place (chars name.now) result }
    ensures on { IfOk result (λ taken. place < taken.next) }
{
    match find_switch(&table.switches, name) {
        Found::One(index, Kind::Flag) => Ok(Taken {
            item: Item::Switch {
                index,
                value: None,
                place: place as u64,
            },
            next: place + 1,
        }),
        Found::One(index, Kind::Value) => {
            let value = value_after(alloc, line, place)?;
            Ok(Taken {
                item: Item::Switch {
                    index,
                    value: Some(value),
                    place: place as u64,
                },
                next: place + 2,
            })
        }
        Found::Nothing => Err(fault_at(place, WordWhy::Unknown)),
        Found::Several => Err(fault_at(place, WordWhy::Ambiguous)),
    }
}

/// Reads the word at this place, and its value where it has one.
fn read_word(
    alloc: Global,
    table: &SwitchTable,
    line: &Line<'_>,
    place: usize,
    word: &Text,
) -> Result<Taken, WordFault>
    requires inside { place < length (words_of line.now) }
    requires few { length (words_of line.now) < 2 ^ 64 }
    requires word { IsWordAt (words_of line.now) place word.now }
    ensures step { IsStep table.now (words_of line.now) place result }
    ensures on { IfOk result (λ taken. place < taken.next) }
{
    match form_of(table.components, word.as_str()) {
        Form::Folder => Ok(Taken {
            item: Item::Folder {
                text: word.duplicate(alloc)?,
                place: place as u64,
            },
            next: place + 1,
        }),
        Form::Message => Ok(Taken {
            item: Item::Message {
                text: word.duplicate(alloc)?,
                place: place as u64,
            },
            next: place + 1,
        }),
        Form::Dash => Err(fault_at(place, WordWhy::Unknown)),
        Form::Switch(name) => read_switch(alloc, table, line, place, name),
        Form::Component(name) => read_component(alloc, line, place, name),
    }
}

/// Reads word after word, up to the first wrong one.
fn read_line(alloc: Global, table: &SwitchTable, line: &Line<'_>) -> Result<ItemList, WordFault>
    requires { length (words_of line.now) < 2 ^ 64 }
    ensures { IsReading table.now (words_of line.now) result }
{
    let mut items = List::new(alloc);
    let mut place = 0;
    while let Some(word) = word_at(line, place) {
        let taken = read_word(alloc, table, line, place, word)?;
        items.push(taken.item)?;
        place = taken.next;
    }
    Ok(items)
}

/// Reads the profile's words and then the command's as one list.
///
/// A switch's value may reach from the last word of the profile into the command's words.
pub fn read_words(
    alloc: Global,
    table: &SwitchTable,
    profile_words: &TextList,
    words: &TextList,
) -> Result<Words, WordFault>
    ensures reads { IfOk result (λ read. Reads table.now 0 (profile_words.now ++ words.now) read.items) }
    ensures known { IfOk result (λ read. All (IsItemOf table.now) read.items) }
    ensures refuses { IfErr result (IsFault table.now (profile_words.now ++ words.now)) }

    // Where the words are read or refused, the result says so, unless memory runs out.
    ensures admits { (items : List Item) → Reads table.now 0 (profile_words.now ++ words.now) items
        → IsReadAs items result }
    ensures fails { (bad : ℕ) (why : WordWhy) → Fails table.now 0 (profile_words.now ++ words.now) bad why
        → IsRefusedAs bad why result }

    // The same as one value.
    ensures whole { IsWhole (read_in table.now 0 (profile_words.now ++ words.now)) result }
{
    // No memory holds so many words.
    if profile_words.len().checked_add(words.len()).is_none() {
        return Err(WordFault::Memory);
    }
    let line = Line {
        profile: profile_words.as_slice(),
        words: words.as_slice(),
    };
    let items = read_line(alloc, table, &line)?;
    Ok(Words { items })
}
