// The refusal of a wrong word.
ghost use Rattle.std.specs.Prelude.{◌≡◌, IfOk, Ok};
ghost use Rattle.std.specs.Str.{encode_utf8_all};
ghost use Rattle.mh_words.specs.Whole.{read_in};
ghost use Rattle.command_stages.specs.Chosen.{word_at};
ghost use Rattle.command_words.specs.Ended.{wrong_at as wrong_at_of, items_or_wrong};
ghost use Rattle.command_words.specs.Results.{IsSaid};

use crate::ended::Ended;
use folder_files::Refusal;
use mh_base::{Bytes, List, TextList, WordWhy};
use mh_words::{ItemList, SwitchTable, WordFault, read_words};
use std::alloc::{AllocError, Global};
use step_plans::CommandFault;

/// The word at this place, in bytes.
fn word_bytes(alloc: Global, words: &TextList, place: u64) -> Result<Bytes, AllocError>
    ensures { IfOk result (λ bytes. bytes ≡ encode_utf8_all (word_at words.now place)) }
{
    match words.as_slice().get(place as usize) {
        Some(word) => Bytes::from_slice(alloc, word.as_str().as_bytes()),
        None => Ok(Bytes::new(alloc)),
    }
}

/// The refusal of the word at this place.
pub fn wrong_at(
    alloc: Global,
    words: &TextList,
    place: u64,
    why: WordWhy,
) -> Result<Ended, AllocError>
    ensures { IfOk result (λ e. e ≡ wrong_at_of words.now (record { place = place; why = why })) }
{
    let word = word_bytes(alloc, words, place)?;
    Ok(Ended {
        fault: CommandFault::Refused(Refusal::BadSwitch { place, why }),
        word: Some(word),
    })
}

/// The items of all these words, or the refusal of the earliest wrong one.
pub fn read_items(alloc: Global, table: &SwitchTable, words: &TextList) -> Result<ItemList, Ended>
    ensures { IsSaid (items_or_wrong words.now (read_in table.now 0 words.now)) result }
{
    match read_words(alloc, table, words, &List::new(alloc)) {
        Ok(read) => Ok(read.items),
        Err(WordFault::Bad { place, why }) => Err(wrong_at(alloc, words, place, why)?),
        Err(WordFault::Memory) => Err(Ended::from(CommandFault::Memory)),
    }
}
