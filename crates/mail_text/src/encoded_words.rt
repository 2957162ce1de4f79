// Text with encoded words.
ghost use Rattle.std.specs.Prelude.{◌≡◌, ◌≤◌, length, IfOk};
ghost use Rattle.std.specs.List.{prefix_len};
ghost use Rattle.mail_text.specs.EncodedWords.{without_gap as without_gap_of, decoded};
ghost use Rattle.mail_text.specs.WordPieces.{IsDecodedAs, AsNoOther};
ghost use Rattle.mh_base.specs.Characters.{is_blank as is_a_blank};

use crate::characters::{blank_len, characters};
use crate::encoded_word::EncodedWord;
use mh_base::Text;
use std::alloc::{AllocError, Global};

/// What stands behind a word, without the blanks at the front where another word follows them.
fn without_gap(text: &[char]) -> &[char]
    ensures { result.now ≡ without_gap_of text.now }
{
    let (_, behind) = text.split_at(blank_len(text));
    if EncodedWord::first(behind).is_some() {
        behind
    } else {
        text
    }
}

/// The text with the characters for which its encoded words stand (RFC 2047, sections 2, 4 and 6.2), in US-ASCII, UTF-8
/// and ISO-8859-1.
pub fn decode_words(alloc: Global, text: &Text) -> Result<Text, AllocError>
    ensures pieces { IfOk result (λ line. IsDecodedAs text.now line) }
    ensures alone { IfOk result (λ line. AsNoOther text.now line) }
    ensures value { IfOk result (λ line. line ≡ decoded text.now) }
{
    let all = characters(alloc, text)?;
    let mut line = Text::new(alloc);
    let mut rest = all.as_slice();
    while let Some((c, behind)) = rest.split_first() {
        match EncodedWord::first(rest) {
            Some(word) => {
                word.put(alloc, &mut line)?;
                rest = without_gap(word.behind);
            }
            None => {
                line.push(*c)?;
                rest = behind;
            }
        }
    }
    Ok(line)
}
