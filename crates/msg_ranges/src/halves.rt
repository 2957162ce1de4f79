// Texts cut in two.
ghost use Rattle.std.specs.Prelude.{◌≡◌, ◌≤◌, ◌==◌, not, length};
ghost use Rattle.std.specs.List.{prefix_len};
ghost use Rattle.msg_ranges.specs.Reading.{AreHalves};

/// The place of the first such byte, or the length.
fn place(text: &[u8], mark: u8) -> usize
    ensures value { result ≡ prefix_len (λ b. not (b == mark)) text.now }
    ensures within { result ≤ length text.now }
{
    text.iter().take_while(|byte| **byte != mark).count()
}

/// What stands before and behind the first such byte.
pub(crate) fn halves(text: &[u8], mark: u8) -> Option<(&[u8], &[u8])>
    ensures { AreHalves mark text.now result }
{
    let (front, behind) = text.split_at(place(text, mark));
    match behind.split_first() {
        Some((_, back)) => Some((front, back)),
        None => None,
    }
}
