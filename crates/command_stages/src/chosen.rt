// The messages that words choose.
ghost use Rattle.std.specs.Prelude.{◌≡◌, map, IfOk};
ghost use Rattle.mh_sequences.specs.Runs.{numbers_of};
ghost use Rattle.msg_ranges.specs.Selection.{marks_of};
ghost use Rattle.msg_ranges.specs.declared.fault.SelectFault.TheVariants.{Memory};
ghost use Rattle.command_stages.specs.Chosen.{IsValue, chosen_in, folder_with, refusal_of, word_at};

use folder_files::Refusal;
use mh_base::{Duplicate, Text, TextList};
use mh_sequences::{NumSet, Sequences};
use msg_ranges::{SelectFault, select};
use std::alloc::{AllocError, Global};
use step_plans::CommandFault;

/// The word at this place.
fn word(alloc: Global, words: &TextList, place: u64) -> Result<Text, AllocError>
    ensures { IfOk result (λ text. text ≡ word_at words.now place) }
{
    match words.as_slice().get(place as usize) {
        Some(word) => word.duplicate(alloc),
        None => Ok(Text::new(alloc)),
    }
}

fn refusal(alloc: Global, words: &TextList, fault: SelectFault) -> Result<CommandFault, AllocError>
    ensures { IfOk result (λ e. e ≡ refusal_of words.now fault) }
{
    Ok(match fault {
        SelectFault::BadSpec(k) => CommandFault::Refused(Refusal::BadSpec(word(alloc, words, k)?)),
        SelectFault::Absent(k) => CommandFault::Refused(Refusal::Absent(word(alloc, words, k)?)),
        SelectFault::EmptyRange(k) => {
            CommandFault::Refused(Refusal::EmptyRange(word(alloc, words, k)?))
        }
        SelectFault::EmptySequence(k) => {
            CommandFault::Refused(Refusal::EmptySequence(word(alloc, words, k)?))
        }
        SelectFault::Memory => CommandFault::Memory,
    })
}

/// The messages of the listing that the words choose, all together, or the refusal of the first word
/// that is refused. Where the prefix is empty no word is negated.
pub fn choose(
    alloc: Global,
    words: &TextList,
    listing: &NumSet,
    sequences: &Sequences,
    negation: &[u8],
) -> Result<NumSet, CommandFault>
    ensures { IsValue
        (chosen_in (folder_with negation.now (numbers_of listing.now.runs) (marks_of sequences.now)) words.now) result }
{
    match select(alloc, words, listing, sequences, negation) {
        Ok(chosen) => Ok(chosen),
        Err(fault) => Err(refusal(alloc, words, fault)?),
    }
}
