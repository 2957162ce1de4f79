// Messages selected by words.
ghost use Rattle.std.specs.Prelude.{◌≡◌, ℕ, map, IfOk, IfErr};
ghost use Rattle.std.specs.Str.{encode_utf8_all};
ghost use Rattle.mh_sequences.specs.Runs.{AreRuns, has, numbers_of};
ghost use Rattle.msg_ranges.specs.declared.fault.SelectFault.TheVariants.{Memory};
ghost use Rattle.msg_ranges.specs.Choosing.{GivesWord};
ghost use Rattle.msg_ranges.specs.Selected.{IsSelected, selected as selected_of};
ghost use Rattle.msg_ranges.specs.Selecting.{folder_of, IsRefusal, IsSelection};

use crate::choosing::choose;
use crate::{SelectFault, Spec};
use mh_base::{Text, TextList};
use mh_sequences::{NumSet, Pile, Sequences};
use std::alloc::Global;

/// What the word at this place designates, or why it is refused.
fn select_word(
    alloc: Global,
    index: u64,
    word: &Text,
    listing: &NumSet,
    sequences: &Sequences,
    negation: &[u8],
) -> Result<NumSet, SelectFault>
    ensures { GivesWord (folder_of negation.now (numbers_of listing.now.runs) sequences.now) index
        (encode_utf8_all word.now) result }
{
    match Spec::read(alloc, word, negation) {
        Ok(spec) => choose(alloc, index, &spec, listing, sequences),
        Err(SelectFault::Memory) => Err(SelectFault::Memory),
        Err(_) => Err(SelectFault::BadSpec(index)),
    }
}

fn union(selected: Pile) -> Result<NumSet, SelectFault>
    ensures set { IfOk result (λ s. (n : ℕ) → has s.runs n ≡ has selected n) }
    ensures valid { IfOk result (λ s. AreRuns s.runs) }
    ensures memory { IfErr result (λ e. e ≡ Memory) }
{
    Ok(selected.into_set()?)
}

/// The messages that words designate, all together, or the refusal of the first word that is refused.
/// Where the prefix is empty no word is negated.
pub fn select(
    alloc: Global,
    specs: &TextList,
    listing: &NumSet,
    sequences: &Sequences,
    negation: &[u8],
) -> Result<NumSet, SelectFault>
    ensures selection { IfOk result
        (λ s.
        IsSelection (folder_of negation.now (numbers_of listing.now.runs) sequences.now)
        (map encode_utf8_all specs.now) s.runs) }
    ensures refusal { IfErr result
        (λ e.
        IsRefusal (folder_of negation.now (numbers_of listing.now.runs) sequences.now)
        (map encode_utf8_all specs.now) e) }

    // The same as one value.
    ensures whole { IsSelected
        (selected_of (folder_of negation.now (numbers_of listing.now.runs) sequences.now)
        (map encode_utf8_all specs.now)) result }
{
    let mut selected = Pile::new(alloc);
    for (index, word) in specs.as_slice().iter().enumerate() {
        let set = select_word(alloc, index as u64, word, listing, sequences, negation)?;
        selected.add_set(&set)?;
    }
    union(selected)
}
