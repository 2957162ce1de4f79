// The sequences that words name.
ghost use Rattle.std.specs.Prelude.{◌≡◌, ◌++◌, IfOk, OnOk};
ghost use Rattle.command_words.specs.Results.{IsNamed};
ghost use Rattle.command_words.specs.SequenceNames.{known_in, known_names, named_sequence, named_sequences};
ghost use Rattle.command_words.specs.Words.{profile_words as profile_words_of};

use crate::words::profile_words;
use folder_files::Refusal;
use mh_base::{Duplicate, List, Text, TextList};
use mh_profile::Entries;
use mh_sequences::{SeqFault, SeqName, SeqNameList};
use std::alloc::{AllocError, Global};
use step_plans::CommandFault;

/// The name that a word is.
fn read_name(alloc: Global, word: &Text) -> Result<SeqName, CommandFault>
    ensures { IsNamed (named_sequence word.now) result }
{
    match SeqName::read(alloc, word) {
        Ok(name) => Ok(name),
        Err(SeqFault::BadName) => {
            let word = word.duplicate(alloc)?;
            Err(CommandFault::Refused(Refusal::BadSequenceName(word)))
        }
        Err(SeqFault::Memory) => Err(CommandFault::Memory),
    }
}

/// The names that these words are, or the refusal of the first that is none.
pub fn sequence_names(alloc: Global, words: &TextList) -> Result<SeqNameList, CommandFault>
    ensures { IsNamed (named_sequences words.now) result }
{
    let mut names = List::new(alloc);
    for word in words.as_slice() {
        names.push(read_name(alloc, word)?)?;
    }
    Ok(names)
}

/// The sequences that the profile's entry of this name gives, cut at spaces and tabs; none where there is no such
/// entry.
pub fn profile_sequences(
    alloc: Global,
    profile: &Entries,
    name: &[u8],
) -> Result<SeqNameList, CommandFault>
    ensures { IsNamed (named_sequences (profile_words_of name.now profile.now)) result }
{
    sequence_names(alloc, &profile_words(alloc, profile, name)?)
}

/// One more name, if the word is one.
fn push_known(alloc: Global, names: &mut SeqNameList, word: &Text) -> Result<(), AllocError>
    ensures { OnOk result (names.new ≡ names.old ++ known_in word.now) }
{
    match SeqName::read(alloc, word) {
        Ok(name) => names.push(name),
        Err(SeqFault::BadName) => Ok(()),
        Err(SeqFault::Memory) => Err(AllocError),
    }
}

/// The sequences that the profile's entry of this name gives, without the words that are no names of sequences.
pub fn known_sequences(
    alloc: Global,
    profile: &Entries,
    name: &[u8],
) -> Result<SeqNameList, AllocError>
    ensures { IfOk result (λ names. names ≡ known_names (profile_words_of name.now profile.now)) }
{
    let words = profile_words(alloc, profile, name)?;
    let mut names = List::new(alloc);
    for word in words.as_slice() {
        push_known(alloc, &mut names, word)?;
    }
    Ok(names)
}
