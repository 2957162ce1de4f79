// Spaces and tabs.
ghost use Rattle.std.specs.Prelude.{◌≡◌, ◌≤◌, ◌==◌, length};
ghost use Rattle.std.specs.List.{prefix_len};
ghost use Rattle.mh_drafts.specs.Blanks.{behind_blanks as rest_behind_blanks, word_len as first_word_len, is_led};
ghost use Rattle.mh_base.specs.Characters.{is_blank as is_blank_byte};

pub(crate) fn is_blank(byte: u8) -> bool
    ensures { result ≡ is_blank_byte byte }
{
    byte == b' ' || byte == b'\t'
}

fn blank_len(text: &[u8]) -> usize
    ensures value { result ≡ prefix_len is_blank_byte text.now }
    ensures inside { result ≤ length text.now }
{
    text.iter().take_while(|byte| is_blank(**byte)).count()
}

pub(crate) fn behind_blanks(text: &[u8]) -> &[u8]
    ensures value { result.now ≡ rest_behind_blanks text.now }
    ensures inside { length result.now ≤ length text.now }
{
    let (_, rest) = text.split_at(blank_len(text));
    rest
}

/// How many bytes stand before the first blank.
pub(crate) fn word_len(text: &[u8]) -> usize
    ensures value { result ≡ first_word_len text.now }
    ensures inside { result ≤ length text.now }
{
    text.iter().take_while(|byte| !is_blank(**byte)).count()
}

/// Whether the text begins with this byte.
pub(crate) fn is_led_by(text: &[u8], byte: u8) -> bool
    ensures { result ≡ is_led byte text.now }
{
    match text.first() {
        Some(first) => *first == byte,
        None => false,
    }
}
