//! The words of the mailbox: message numbers, names and their kinds, bytes, text and lists, and the
//! streams that a command reads and writes.
#![tactic(auto)]

mod bytes;
mod decimal;
mod duplicate;
mod entry;
mod folder;
mod hex;
mod list;
mod memory;
mod name;
mod number;
mod streams;
mod system;
mod text;
mod word;

pub use bytes::Bytes;
pub use duplicate::Duplicate;
pub use entry::{Entry, entry_name, entry_of};
pub use folder::{FolderFault, FolderName};
pub use list::{BytesList, List, NumberList, TextList};
pub use memory::{MemSink, PlainSink, PlainSource};
pub use name::{Name, NameList};
pub use number::MsgNum;
pub use streams::{Sink, SinkFault, Source, SourceFault};
pub use system::{StdSink, StdSource};
pub use text::Text;
pub use word::WordWhy;
