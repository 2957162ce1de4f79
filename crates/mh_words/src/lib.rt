//! The words of a command line, read against the switches that the command knows.
#![tactic(auto)]

mod fault;
mod form;
mod item;
mod line;
mod lookup;
mod reading;
mod table;

pub use fault::WordFault;
pub use item::{Item, ItemList, Words};
pub use mh_base::WordWhy;
pub use reading::read_words;
pub use table::{Kind, Switch, SwitchList, SwitchTable};
