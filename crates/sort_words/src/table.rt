// The switches of `sortm`, and their places in its table.
ghost use Rattle.std.specs.Prelude.{◌≡◌, IfOk};
ghost use Rattle.sort_words.specs.Table.{sort_table as sort_table_of};

use command_words::switch_table;
use mh_words::{Kind, SwitchTable};
use std::alloc::{AllocError, Global};

pub(crate) const DATEFIELD: u64 = 0;

pub(crate) const TEXTFIELD: u64 = 1;

/// The switches of `sortm`.
const SWITCHES: [(&str, Kind); 2] = [("datefield", Kind::Value), ("textfield", Kind::Value)];

/// The table of `sortm`.
pub(crate) fn sort_table(alloc: Global) -> Result<SwitchTable, AllocError>
    ensures { IfOk result (λ table. table ≡ sort_table_of) }
{
    switch_table(alloc, &SWITCHES)
}
