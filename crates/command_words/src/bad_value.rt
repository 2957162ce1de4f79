// Values that are wrong.
ghost use Rattle.std.specs.Prelude.{◌≡◌, IfOk};
ghost use Rattle.mh_base.specs.declared.word.WordWhy.TheVariants.{Extra};
ghost use Rattle.command_words.specs.BadValues.{earliest};
ghost use Rattle.command_words.specs.Ended.{wrong_at as wrong_at_of};

use crate::ended::Ended;
use crate::wrong_word::wrong_at;
use mh_base::{TextList, WordWhy};
use std::alloc::{AllocError, Global};

/// The refusal of a word that is too many, or of a value before it that is wrong, at this place.
pub fn wrong_earliest(
    alloc: Global,
    words: &TextList,
    bad: Option<u64>,
    second: u64,
) -> Result<Ended, AllocError>
    ensures { IfOk result (λ e. e ≡ wrong_at_of words.now (earliest bad (record { place = second; why = Extra }))) }
{
    match bad {
        Some(place) if place < second => wrong_at(alloc, words, place, WordWhy::BadValue),
        _ => wrong_at(alloc, words, second, WordWhy::Extra),
    }
}
