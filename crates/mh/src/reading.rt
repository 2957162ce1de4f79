// The first reading of a command's words: what `main` asks of them beside the top call. Only the top call decides
// whether they are right.
use crate::profile::read_profile;
use crate::start::StartFault;
use crate::switches::{Row, rows_of, table_of};
use command_words::{Ended, all_words, read_items};
use mh_base::TextList;
use mh_words::{Item, ItemList};

/// The items of a command's words, the profile's first, and its switches.
#[derive(Drop)]
pub struct Reading {
    items: ItemList,
    rows: Vec<Row>,
}

impl From<Ended> for StartFault {
    /// Which word is wrong is the top call's to say.
    fn from(_: Ended) -> Self {
        StartFault::NoSetting
    }
}

/// The words of a command, the profile's first.
fn words_with_profile(
    rt: &HostRuntime,
    home: &str,
    command: &str,
    words: &[String],
) -> Result<TextList, StartFault> {
    let profile = read_profile(rt, home)?;
    Ok(all_words(rt.alloc(), &profile, command.as_bytes(), words)?)
}

/// How many words of a command the profile adds.
pub fn count_of_profile(rt: &HostRuntime, home: &str, command: &str) -> Result<u64, StartFault> {
    Ok(words_with_profile(rt, home, command, &[])?.len() as u64)
}

/// The first reading of these words of a command.
pub fn read(
    rt: &HostRuntime,
    home: &str,
    command: &str,
    words: &[String],
) -> Result<Reading, StartFault> {
    let alloc = rt.alloc();
    let words = words_with_profile(rt, home, command, words)?;
    let table = table_of(alloc, command)?;
    let items = read_items(alloc, &table, &words)?;
    Ok(Reading {
        items,
        rows: rows_of(alloc, command)?,
    })
}

impl Reading {
    /// The name of the switch that an item is.
    fn switch_name(&self, item: &Item) -> Option<&'static str> {
        match item {
            Item::Switch { index, .. } => {
                let row = self.rows.as_slice().get(usize::try_from(*index).ok()?)?;
                Some(row.0)
            }
            _ => None,
        }
    }

    fn has(&self, name: &str) -> bool {
        self.items
            .as_slice()
            .iter()
            .any(|item| self.switch_name(item) == Some(name))
    }

    /// Of two opposed switches, whether the last that is given is the one.
    fn last_of(&self, one: &str, other: &str) -> Option<bool> {
        let mut last = None;
        for item in self.items.as_slice() {
            match self.switch_name(item) {
                Some(name) if name == one => last = Some(true),
                Some(name) if name == other => last = Some(false),
                _ => {}
            }
        }
        last
    }

    fn has_message(&self) -> bool {
        self.items
            .as_slice()
            .iter()
            .any(|item| matches!(item, Item::Message { .. }))
    }

    /// Whether `pick` lists messages.
    pub fn picks_aloud(&self) -> bool {
        match self.last_of("list", "nolist") {
            Some(is_listed) => is_listed,
            None => !self.has("sequence"),
        }
    }

    /// Whether a `pick`, a `mark` or a `folder` of these words changes nothing but the current folder.
    pub fn only_looks(&self, command: &str) -> bool {
        match command {
            "pick" => !self.has("sequence"),
            "mark" => {
                let is_told = self.has("add") || self.has("delete");
                !is_told && (self.has("list") || !self.has("sequence"))
            }
            "folder" => !self.has_message() && self.last_of("pack", "nopack") != Some(true),
            _ => false,
        }
    }
}
