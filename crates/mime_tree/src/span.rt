// Places in the bytes of a message.
ghost use Rattle.std.specs.Prelude.{◌≡◌, ◌≤◌, length};
ghost use Rattle.mime_tree.specs.Spans.{text_at};

/// The bytes from one place to another.
#[derive(Clone, Copy, Debug, PartialEq, Eq)]
pub struct Span {
    pub from: u64,
    pub to: u64,
}

impl Span {
    /// The bytes of the span; of those that aren't there, none.
    pub(crate) fn of(self, bytes: &[u8]) -> &[u8]
        ensures value { result.now ≡ text_at bytes.now self }
        ensures inside { length result.now ≤ self.to }
    {
        let to = bytes.len().min(self.to as usize);
        let (front, _) = bytes.split_at(to);
        let (_, text) = front.split_at(to.min(self.from as usize));
        text
    }
}
