// The words of a command line, the profile's first.
ghost use Rattle.std.specs.Prelude.{◌≡◌, ◌+◌, ◌<◌, ◌↔◌, ◌∷◌, [], drop, length, MatchOption, IsSome};
ghost use Rattle.mh_words.specs.Lines.{IsWordAt, words_of};

use mh_base::Text;

/// The words of a command line: the profile's, and then the command's.
#[derive(Clone, Copy)]
pub struct Line<'a> {
    pub profile: &'a [Text],
    pub words: &'a [Text],
}

/// The word at this place of one list.
fn word_in(words: &[Text], place: usize) -> Option<&Text>
    ensures word { MatchOption result (drop place words.now ≡ []) (λ w. IsWordAt words.now place w.now) }
    ensures inside { IsSome result ↔ (place < length words.now) }
{
    words.get(place)
}

/// The word at this place, from 0 through the profile's words and on through the command's.
pub fn word_at<'a>(line: &Line<'a>, place: usize) -> Option<&'a Text>
    ensures word { MatchOption result (drop place (words_of line.now) ≡ [])
        (λ w. IsWordAt (words_of line.now) place w.now) }
    ensures inside { IsSome result ↔ (place < length (words_of line.now)) }
{
    if place < line.profile.len() {
        word_in(line.profile, place)
    } else {
        word_in(line.words, place - line.profile.len())
    }
}
