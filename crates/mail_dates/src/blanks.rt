// Words of a date word, between blanks.
ghost use Rattle.std.specs.Prelude.{◌≡◌, ◌≤◌, ◌∷◌, [], not, length, MatchOption};
ghost use Rattle.std.specs.List.{prefix_len};
ghost use Rattle.mail_dates.specs.Picking.{is_trimmed as is_trimmed_text};
ghost use Rattle.mh_base.specs.Characters.{is_blank as is_a_blank, words};

fn is_blank(byte: u8) -> bool
    ensures { result ≡ is_a_blank byte }
{
    byte == b' ' || byte == b'\t'
}

pub(crate) fn is_trimmed(text: &[u8]) -> bool
    ensures { result ≡ is_trimmed_text text.now }
{
    let (Some(first), Some(last)) = (text.first(), text.last()) else {
        return true;
    };
    !is_blank(*first) && !is_blank(*last)
}

fn blank_len(text: &[u8]) -> usize
    ensures value { result ≡ prefix_len is_a_blank text.now }
    ensures inside { result ≤ length text.now }
{
    text.iter().take_while(|byte| is_blank(**byte)).count()
}

fn word_len(text: &[u8]) -> usize
    ensures value { result ≡ prefix_len (λ b. not (is_a_blank b)) text.now }
    ensures inside { result ≤ length text.now }
{
    text.iter().take_while(|byte| !is_blank(**byte)).count()
}

/// The first word, and what stands behind it.
pub(crate) fn next_word(text: &[u8]) -> Option<(&[u8], &[u8])>
    ensures { MatchOption result (words is_a_blank text.now ≡ [])
        (λ r. words is_a_blank text.now ≡ r.0.now ∷ words is_a_blank r.1.now) }
{
    let (_, from_word) = text.split_at(blank_len(text));
    if from_word.is_empty() {
        return None;
    }
    Some(from_word.split_at(word_len(from_word)))
}
