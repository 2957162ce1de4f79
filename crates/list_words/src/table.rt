// The switch of `mhlist`.
ghost use Rattle.std.specs.Prelude.{◌≡◌, IfOk};
ghost use Rattle.list_words.specs.Table.{list_table as list_table_of};

use command_words::switch_table;
use mh_words::{Kind, SwitchTable};
use std::alloc::{AllocError, Global};

/// The switch of `mhlist`.
const SWITCHES: [(&str, Kind); 1] = [("part", Kind::Value)];

/// The table of `mhlist`.
pub(crate) fn list_table(alloc: Global) -> Result<SwitchTable, AllocError>
    ensures { IfOk result (λ table. table ≡ list_table_of) }
{
    switch_table(alloc, &SWITCHES)
}
