// One encoded word.
ghost use Rattle.std.specs.Prelude.{◌≡◌, ◌≤◌, ◌++◌, length, MatchOption, Some, None, OnOk};
ghost use Rattle.std.specs.List.{prefix_len};
ghost use Rattle.mail_text.specs.EncodedWords.{after as after_of, is_inner, is_text as is_text_of, closed as closed_of, word_of as word_of_parts, lettered as lettered_of, named as named_of, first_word, characters_of};

use crate::charset::Charset;
use crate::encoding::Encoding;
use mh_base::Text;
use std::alloc::{AllocError, Global};

/// What stands behind this character, if a text begins with it.
fn after(c: char, text: &[char]) -> Option<&[char]>
    ensures { MatchOption result (after_of c text.now ≡ None) (λ rest. after_of c text.now ≡ Some rest.now) }
{
    match text.split_first() {
        Some((first, rest)) if *first == c => Some(rest),
        _ => None,
    }
}

fn inner_len(text: &[char]) -> usize
    ensures value { result ≡ prefix_len is_inner text.now }
    ensures inside { result ≤ length text.now }
{
    text.iter().take_while(|c| **c != '?').count()
}

fn is_text(c: char) -> bool
    ensures { result ≡ is_text_of c }
{
    !(c == '?' || c == ' ' || c == '\t' || c == '\n' || c == '\r')
}

fn text_len(text: &[char]) -> usize
    ensures value { result ≡ prefix_len is_text_of text.now }
    ensures inside { result ≤ length text.now }
{
    text.iter().take_while(|c| is_text(**c)).count()
}

/// What stands behind the signs that end a word.
fn closed(text: &[char]) -> Option<&[char]>
    ensures { MatchOption result (closed_of text.now ≡ None) (λ rest. closed_of text.now ≡ Some rest.now) }
{
    after('=', after('?', text)?)
}

/// An encoded word: its parts, and what stands behind it.
#[derive(Clone, Copy)]
pub(crate) struct EncodedWord<'a> {
    charset: Charset,
    encoding: Encoding,
    text: &'a [char],
    pub(crate) behind: &'a [char],
}

impl<'a> EncodedWord<'a> {
    ghost use Rattle.mail_text.specs.WordView.{word_text};

    fn of(charset: Charset, encoding: Encoding, text: &'a [char]) -> Option<EncodedWord<'a>>
        ensures { MatchOption result (word_of_parts charset encoding text.now ≡ None)
            (λ w. word_of_parts charset encoding text.now ≡ Some (word_text w)) }
    {
        let (text, from_end) = text.split_at(text_len(text));
        let behind = closed(from_end)?;
        Some(EncodedWord {
            charset,
            encoding,
            text,
            behind,
        })
    }

    fn lettered(charset: Charset, text: &'a [char]) -> Option<EncodedWord<'a>>
        ensures { MatchOption result (lettered_of charset text.now ≡ None)
            (λ w. lettered_of charset text.now ≡ Some (word_text w)) }
    {
        let encoding = Encoding::first(text)?;
        let (_, behind) = text.split_first()?;
        EncodedWord::of(charset, encoding, after('?', behind)?)
    }

    fn named(text: &'a [char]) -> Option<EncodedWord<'a>>
        ensures { MatchOption result (named_of text.now ≡ None) (λ w. named_of text.now ≡ Some (word_text w)) }
    {
        let (name, from_mark) = text.split_at(inner_len(text));
        let charset = Charset::named(name)?;
        EncodedWord::lettered(charset, after('?', from_mark)?)
    }

    /// The encoded word with which a text begins.
    #[tactic(auto, unfolding(crate::specs::EncodedWords::first_word))]
    pub(crate) fn first(text: &'a [char]) -> Option<EncodedWord<'a>>
        ensures { MatchOption result (first_word text.now ≡ None) (λ w. first_word text.now ≡ Some (word_text w)) }
    {
        EncodedWord::named(after('?', after('=', text)?)?)
    }

    /// Adds the characters for which it stands.
    pub(crate) fn put(self, alloc: Global, text: &mut Text) -> Result<(), AllocError>
        ensures { OnOk result (text.new ≡ text.old ++ characters_of (word_text self.entry)) }
    {
        let bytes = self.encoding.decode(alloc, self.text)?;
        self.charset.put(alloc, text, bytes.as_slice())
    }
}
