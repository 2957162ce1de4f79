// The directive that makes messages parts.
ghost use Rattle.std.specs.Prelude.{◌≡◌, ◌++◌, ◌∷◌, [], map, filter, IfOk, OnOk, Some};
ghost use Rattle.mail_text.specs.ShownBytes.{shown};
ghost use Rattle.mh_drafts.specs.Forwards.{forwarded, messages_in, named_messages};
ghost use Rattle.mh_base.specs.Characters.{is_some_text, words_in as words_of};

use crate::blanks::{behind_blanks, is_blank, is_led_by, word_len};
use crate::directive::Directive;
use crate::{Leaf, Want};
use mail_text::show_bytes;
use mh_base::{List, Text, TextList};
use std::alloc::{AllocError, Global};

/// What the word shows, where it has a byte.
fn push_shown(alloc: Global, words: &mut TextList, word: &[u8]) -> Result<(), AllocError>
    ensures { OnOk result (words.new ≡ words.old ++ map shown (filter is_some_text (word.now ∷ []))) }
{
    if word.is_empty() {
        Ok(())
    } else {
        words.push(show_bytes(alloc, word)?)
    }
}

/// What stands between blanks, as the characters that its bytes show.
fn words_in(alloc: Global, text: &[u8]) -> Result<TextList, AllocError>
    ensures { IfOk result (λ words. words ≡ map shown (words_of text.now)) }
{
    let mut words = List::new(alloc);
    for word in text.split(|byte| is_blank(*byte)) {
        push_shown(alloc, &mut words, word)?;
    }
    Ok(words)
}

fn messages(alloc: Global, folder: Option<Text>, text: &[u8]) -> Result<Directive, AllocError>
    ensures { IfOk result (λ d. d ≡ forwarded folder text.now) }
{
    let specs = words_in(alloc, text)?;
    Ok(Directive::Part(Leaf::Messages, Want::Messages { folder, specs }))
}

fn messages_of_folder(alloc: Global, text: &[u8]) -> Result<Directive, AllocError>
    ensures { IfOk result (λ d. d ≡ named_messages text.now) }
{
    let (folder, behind) = text.split_at(word_len(text));
    messages(alloc, Some(show_bytes(alloc, folder)?), behind)
}

/// The folder, where one is named, and the messages.
pub(crate) fn forward_line(alloc: Global, text: &[u8]) -> Result<Directive, AllocError>
    ensures { IfOk result (λ d. d ≡ messages_in text.now) }
{
    let words = behind_blanks(text);
    if is_led_by(words, b'+') {
        messages_of_folder(alloc, words)
    } else {
        messages(alloc, None, words)
    }
}
