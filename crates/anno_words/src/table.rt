// The switches of `anno`, and their places in its table.
ghost use Rattle.std.specs.Prelude.{◌≡◌, IfOk};
ghost use Rattle.anno_words.specs.Table.{anno_table as anno_table_of};

use command_words::switch_table;
use mh_words::{Kind, SwitchTable};
use std::alloc::{AllocError, Global};

pub(crate) const COMPONENT: u64 = 0;

pub(crate) const TEXT: u64 = 1;

pub(crate) const DATE: u64 = 2;

pub(crate) const NODATE: u64 = 3;

/// The switches of `anno`.
const SWITCHES: [(&str, Kind); 4] = [
    ("component", Kind::Value),
    ("text", Kind::Value),
    ("date", Kind::Flag),
    ("nodate", Kind::Flag),
];

/// The table of `anno`.
pub(crate) fn anno_table(alloc: Global) -> Result<SwitchTable, AllocError>
    ensures { IfOk result (λ table. table ≡ anno_table_of) }
{
    switch_table(alloc, &SWITCHES)
}
