// The words of `mhbuild`.
ghost use Rattle.std.specs.Prelude.{◌≡◌, IfOk, map};
ghost use Rattle.std.specs.Str.{chars};
ghost use Rattle.std.specs.String.{string_bytes};
ghost use Rattle.command_words.specs.BadValues.{first_of};
ghost use Rattle.command_words.specs.Results.{IsSaid};
ghost use Rattle.build_words.specs.BuildWords.{build_said, line_said as line_said_of, named_beside as named_beside_of, names_said as names_said_of, none_named as none_named_of, or_wrong};
ghost use Rattle.build_words.specs.Sorts.{places as places_of};
ghost use Rattle.build_words.specs.declared.sort.Sort.TheVariants.{Name};

use crate::draft::draft_at;
use crate::sort::{Sort, first, least, places, second};
use command_words::{Ended, all_words, wrong_at, wrong_earliest};
use draft_files::DraftName;
use mh_base::{TextList, WordWhy};
use mh_profile::Entries;
use std::alloc::Global;

/// The words of `mhbuild`: the draft's name, or none where the draft is the input.
#[derive(Drop)]
pub struct BuildWords {
    pub draft: Option<DraftName>,
}

/// What a name at this place says, beside a word that is too many, where there is one.
fn named_beside(
    alloc: Global,
    words: &TextList,
    place: u64,
    said: Option<BuildWords>,
    other: Option<u64>,
) -> Result<BuildWords, Ended>
    ensures { IsSaid (or_wrong words.now (named_beside_of place said other)) result }
{
    match said {
        Some(said) => match other {
            Some(other) => Err(wrong_at(alloc, words, other, WordWhy::Extra)?),
            None => Ok(said),
        },
        None => match other {
            Some(other) => Err(wrong_earliest(alloc, words, Some(place), other)?),
            None => Err(wrong_at(alloc, words, place, WordWhy::BadValue)?),
        },
    }
}

/// The refusal where there is no name.
fn none_named(alloc: Global, words: &TextList, other: Option<u64>) -> Result<BuildWords, Ended>
    ensures { IsSaid (or_wrong words.now (none_named_of words.now other)) result }
{
    match other {
        Some(other) => Err(wrong_at(alloc, words, other, WordWhy::Extra)?),
        None => Err(wrong_at(alloc, words, words.len() as u64, WordWhy::Missing)?),
    }
}

/// What words say among which there is no switch.
fn names_said(alloc: Global, words: &TextList) -> Result<BuildWords, Ended>
    ensures { IsSaid (or_wrong words.now (names_said_of words.now (first_of (places_of Name 0 words.now)))) result }
{
    let names = places(alloc, words, Sort::Name)?;
    let folders = places(alloc, words, Sort::Folder)?;
    let other = least(first(&folders), second(&names));
    match first(&names) {
        Some(place) => {
            let said = draft_at(alloc, words, place)?;
            named_beside(alloc, words, place, said, other)
        }
        None => none_named(alloc, words, other),
    }
}

/// What these words say.
fn line_said(alloc: Global, words: &TextList) -> Result<BuildWords, Ended>
    ensures { IsSaid (line_said_of words.now) result }
{
    let switches = places(alloc, words, Sort::Switch)?;
    match first(&switches) {
        Some(place) => Err(wrong_at(alloc, words, place, WordWhy::Unknown)?),
        None => names_said(alloc, words),
    }
}

/// What the words of `mhbuild` say, those of the profile first.
pub fn build_words(alloc: Global, profile: &Entries, words: &[String]) -> Result<BuildWords, Ended>
    ensures { IsSaid (build_said profile.now (map chars (map string_bytes words.now))) result }
{
    let all = all_words(alloc, profile, b"mhbuild", words)?;
    line_said(alloc, &all)
}
