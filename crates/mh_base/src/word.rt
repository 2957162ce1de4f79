// Why a word of a command line is wrong.

/// Why a word of a command line is wrong.
#[derive(Clone, Copy, Debug, PartialEq, Eq)]
pub enum WordWhy {
    /// There is no such command, or no word at all.
    NoCommand,
    /// The command has no such switch.
    Unknown,
    /// Several switches begin with this word.
    Ambiguous,
    /// The switch takes a value and no word follows.
    NoValue,
    /// The value is not of the switch's form.
    BadValue,
    /// A word that the command needs is missing.
    Missing,
    /// The command takes no further word.
    Extra,
}
