// The words of a command, its profile's first.
ghost use Rattle.std.specs.Prelude.{◌≡◌, ◌++◌, ◌∷◌, [], IfOk, OnOk, filter, map};
ghost use Rattle.std.specs.Str.{chars};
ghost use Rattle.std.specs.String.{string_bytes};
ghost use Rattle.mail_text.specs.ShownBytes.{shown};
ghost use Rattle.command_words.specs.Words.{profile_words as profile_words_of};
ghost use Rattle.mh_base.specs.Characters.{is_blank as is_blank_value, is_some_text, words_in as words_of};

use mail_text::show_bytes;
use mh_base::{List, Text, TextList};
use mh_profile::Entries;
use std::alloc::{AllocError, Global};

fn is_blank(byte: u8) -> bool
    ensures { result ≡ is_blank_value byte }
{
    byte == b' ' || byte == b'\t'
}

/// What the part shows, where it has a byte.
fn push_shown(alloc: Global, words: &mut TextList, part: &[u8]) -> Result<(), AllocError>
    ensures { OnOk result (words.new ≡ words.old ++ map shown (filter is_some_text (part.now ∷ []))) }
{
    if part.is_empty() {
        Ok(())
    } else {
        words.push(show_bytes(alloc, part)?)
    }
}

/// What stands between spaces and tabs, as the characters that its bytes show.
fn words_in(alloc: Global, value: &[u8]) -> Result<TextList, AllocError>
    ensures { IfOk result (λ words. words ≡ map shown (words_of value.now)) }
{
    let mut words = List::new(alloc);
    for part in value.split(|byte| is_blank(*byte)) {
        push_shown(alloc, &mut words, part)?;
    }
    Ok(words)
}

/// The words that the profile's entry of this name adds.
pub(crate) fn profile_words(
    alloc: Global,
    profile: &Entries,
    name: &[u8],
) -> Result<TextList, AllocError>
    ensures { IfOk result (λ words. words ≡ profile_words_of name.now profile.now) }
{
    match profile.get(name)? {
        Some(value) => words_in(alloc, value.as_slice()),
        None => words_in(alloc, &[]),
    }
}

/// The words of the profile's entry of this name, and then the command's.
pub fn all_words(
    alloc: Global,
    profile: &Entries,
    name: &[u8],
    words: &[String],
) -> Result<TextList, AllocError>
    ensures { IfOk result
        (λ all. all ≡ profile_words_of name.now profile.now ++ map chars (map string_bytes words.now)) }
{
    let mut all = profile_words(alloc, profile, name)?;
    for word in words {
        all.push(Text::from_str(alloc, word.as_str())?)?;
    }
    Ok(all)
}
