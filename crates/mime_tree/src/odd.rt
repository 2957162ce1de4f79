// What is odd about a part.

/// Why a part has not the kids that its type promises, or may have lost the end of the last.
#[derive(Clone, Copy, Debug, PartialEq, Eq)]
pub enum Odd {
    None,
    /// No closing line stands behind the last part.
    Unclosed,
    /// There is no boundary to cut by.
    NoBoundary,
    /// The kids lie too deep to be parts.
    TooDeep,
}
