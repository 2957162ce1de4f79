// The switches of commands on a folder, and their places in the tables.
ghost use Rattle.std.specs.Prelude.{◌≡◌, IfOk};
ghost use Rattle.folder_words.specs.Tables.{
  mark_table as mark_table_of,
  folder_table as folder_table_of,
  pick_table as pick_table_of,
  refile_table as refile_table_of,
  rmm_table as rmm_table_of,
};

use command_words::{component_table, switch_table};
use mh_words::{Kind, SwitchTable};
use pick_expr::SWITCHES;
use std::alloc::{AllocError, Global};

// The places of the switches of `mark`.
pub(crate) const ADD: u64 = 0;

pub(crate) const DELETE: u64 = 1;

pub(crate) const LIST: u64 = 2;

pub(crate) const SEQUENCE: u64 = 3;

pub(crate) const PUBLIC: u64 = 4;

pub(crate) const NOPUBLIC: u64 = 5;

pub(crate) const ZERO: u64 = 6;

pub(crate) const NOZERO: u64 = 7;

// The places of those switches of `pick` that are no part of its expression.
pub(crate) const PICK_DATEFIELD: u64 = 13;

pub(crate) const PICK_SEQUENCE: u64 = 14;

pub(crate) const PICK_PUBLIC: u64 = 15;

pub(crate) const PICK_NOPUBLIC: u64 = 16;

pub(crate) const PICK_ZERO: u64 = 17;

pub(crate) const PICK_NOZERO: u64 = 18;

pub(crate) const PICK_LIST: u64 = 19;

pub(crate) const PICK_NOLIST: u64 = 20;

// The places of the switches of `refile`.
pub(crate) const LINK: u64 = 0;

pub(crate) const NOLINK: u64 = 1;

pub(crate) const SRC: u64 = 2;

// The places of the switches of `folder`.
pub(crate) const PACK: u64 = 0;

pub(crate) const NOPACK: u64 = 1;

// The places of the switches of `rmm`.
pub(crate) const UNLINK: u64 = 0;

pub(crate) const NOUNLINK: u64 = 1;

/// The switches of `mark`.
const MARK: [(&str, Kind); 8] = [
    ("add", Kind::Flag),
    ("delete", Kind::Flag),
    ("list", Kind::Flag),
    ("sequence", Kind::Value),
    ("public", Kind::Flag),
    ("nopublic", Kind::Flag),
    ("zero", Kind::Flag),
    ("nozero", Kind::Flag),
];

/// The switches of `refile`.
const REFILE: [(&str, Kind); 3] = [
    ("link", Kind::Flag),
    ("nolink", Kind::Flag),
    ("src", Kind::Value),
];

/// The switches of `folder`.
const FOLDER: [(&str, Kind); 2] = [("pack", Kind::Flag), ("nopack", Kind::Flag)];

/// The switches of `rmm`.
const RMM: [(&str, Kind); 2] = [("unlink", Kind::Flag), ("nounlink", Kind::Flag)];

/// The table of `mark`.
pub(crate) fn mark_table(alloc: Global) -> Result<SwitchTable, AllocError>
    ensures { IfOk result (λ table. table ≡ mark_table_of) }
{
    switch_table(alloc, &MARK)
}

/// The table of `refile`.
pub(crate) fn refile_table(alloc: Global) -> Result<SwitchTable, AllocError>
    ensures { IfOk result (λ table. table ≡ refile_table_of) }
{
    switch_table(alloc, &REFILE)
}

/// The table of `folder`.
pub(crate) fn folder_table(alloc: Global) -> Result<SwitchTable, AllocError>
    ensures { IfOk result (λ table. table ≡ folder_table_of) }
{
    switch_table(alloc, &FOLDER)
}

/// The table of `rmm`.
pub(crate) fn rmm_table(alloc: Global) -> Result<SwitchTable, AllocError>
    ensures { IfOk result (λ table. table ≡ rmm_table_of) }
{
    switch_table(alloc, &RMM)
}

/// The table of `pick`.
pub(crate) fn pick_table(alloc: Global) -> Result<SwitchTable, AllocError>
    ensures { IfOk result (λ table. table ≡ pick_table_of) }
{
    component_table(alloc, &SWITCHES)
}
