// The switches of `mhstore`, and their places in its table.
ghost use Rattle.std.specs.Prelude.{◌≡◌, IfOk};
ghost use Rattle.store_words.specs.Table.{store_table as store_table_of};

use command_words::switch_table;
use mh_words::{Kind, SwitchTable};
use std::alloc::{AllocError, Global};

pub(crate) const PART: u64 = 0;

pub(crate) const CLOBBER: u64 = 1;

/// The switches of `mhstore`.
const SWITCHES: [(&str, Kind); 2] = [("part", Kind::Value), ("clobber", Kind::Value)];

/// The table of `mhstore`.
pub(crate) fn store_table(alloc: Global) -> Result<SwitchTable, AllocError>
    ensures { IfOk result (λ table. table ≡ store_table_of) }
{
    switch_table(alloc, &SWITCHES)
}
