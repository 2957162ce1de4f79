// The draft that a word names.
ghost use Rattle.std.specs.Prelude.{◌≡◌, IfOk};
ghost use Rattle.std.specs.Str.{encode_utf8_all};
ghost use Rattle.command_stages.specs.Chosen.{word_at};
ghost use Rattle.build_words.specs.BuildWords.{by_name as by_name_of, draft_named as draft_named_of, is_input as is_input_of};

use crate::BuildWords;
use draft_files::DraftName;
use mh_base::{Bytes, Text, TextList};
use std::alloc::{AllocError, Global};

fn is_input(word: &[u8]) -> bool
    ensures { result ≡ is_input_of word.now }
{
    word == b"-".as_slice()
}

fn by_name(alloc: Global, word: &[u8]) -> Result<Option<BuildWords>, AllocError>
    ensures { IfOk result (λ said. said ≡ by_name_of word.now) }
{
    match DraftName::new(Bytes::from_slice(alloc, word)?) {
        Some(name) => Ok(Some(BuildWords { draft: Some(name) })),
        None => Ok(None),
    }
}

fn draft_named(alloc: Global, word: &Text) -> Result<Option<BuildWords>, AllocError>
    ensures { IfOk result (λ said. said ≡ draft_named_of word.now) }
{
    let bytes = word.as_str().as_bytes();
    if is_input(bytes) {
        Ok(Some(BuildWords { draft: None }))
    } else {
        by_name(alloc, bytes)
    }
}

/// The draft that the word at this place names, if it names one.
pub(crate) fn draft_at(
    alloc: Global,
    words: &TextList,
    place: u64,
) -> Result<Option<BuildWords>, AllocError>
    ensures { IfOk result (λ said. said ≡ draft_named_of (word_at words.now place)) }
{
    match words.as_slice().get(place as usize) {
        Some(word) => draft_named(alloc, word),
        None => draft_named(alloc, &Text::new(alloc)),
    }
}
