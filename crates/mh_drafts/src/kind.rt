// Kinds of multiparts.

/// What the parts of a multipart are to each other (RFC 2046, section 5.1).
#[derive(Clone, Copy, Debug, PartialEq, Eq)]
pub enum Kind {
    Mixed,
    Alternative,
    Parallel,
    Digest,
}
