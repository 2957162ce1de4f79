// How messages are looked at.

use format_compiler::Program;
use mh_base::Text;

/// The format of lines, compiled; in how many columns, by whom and when messages are looked at.
#[derive(Drop)]
pub struct Look {
    pub program: Program,
    pub width: u32,
    /// Seconds from 1970-01-01 00:00:00 UTC.
    pub moment: i64,
    pub user: Text,
}
