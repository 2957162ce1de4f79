// The width of what is printed.

/// In how many columns something is printed, and whether a number is filled with zeros.
#[derive(Clone, Copy, Debug, PartialEq, Eq)]
pub struct Width {
    pub columns: u16,
    pub zeros: bool,
}
