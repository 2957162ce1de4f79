// The switches of `scan` and `inc`, and their places in the tables.
ghost use Rattle.std.specs.Prelude.{◌≡◌, IfOk};
ghost use Rattle.look_words.specs.Tables.{scan_table as scan_table_of, inc_table as inc_table_of};

use command_words::switch_table;
use mh_words::{Kind, SwitchTable};
use std::alloc::{AllocError, Global};

// The places of the switches that both have of lines.
pub(crate) const FORMAT: u64 = 0;

pub(crate) const WIDTH: u64 = 1;

pub(crate) const FORM: u64 = 2;

// The places of the other switches of `scan`.
pub(crate) const REVERSE: u64 = 3;

pub(crate) const NOREVERSE: u64 = 4;

// The places of the other switches of `inc`.
pub(crate) const FILE: u64 = 3;

pub(crate) const TRUNCATE: u64 = 4;

pub(crate) const NOTRUNCATE: u64 = 5;

pub(crate) const CHANGECUR: u64 = 6;

pub(crate) const NOCHANGECUR: u64 = 7;

pub(crate) const SILENT: u64 = 8;

pub(crate) const NOSILENT: u64 = 9;

/// The switches of `scan`.
const SCAN: [(&str, Kind); 5] = [
    ("format", Kind::Value),
    ("width", Kind::Value),
    ("form", Kind::Value),
    ("reverse", Kind::Flag),
    ("noreverse", Kind::Flag),
];

/// The switches of `inc`.
const INC: [(&str, Kind); 10] = [
    ("format", Kind::Value),
    ("width", Kind::Value),
    ("form", Kind::Value),
    ("file", Kind::Value),
    ("truncate", Kind::Flag),
    ("notruncate", Kind::Flag),
    ("changecur", Kind::Flag),
    ("nochangecur", Kind::Flag),
    ("silent", Kind::Flag),
    ("nosilent", Kind::Flag),
];

/// The table of `scan`.
pub(crate) fn scan_table(alloc: Global) -> Result<SwitchTable, AllocError>
    ensures { IfOk result (λ table. table ≡ scan_table_of) }
{
    switch_table(alloc, &SCAN)
}

/// The table of `inc`.
pub(crate) fn inc_table(alloc: Global) -> Result<SwitchTable, AllocError>
    ensures { IfOk result (λ table. table ≡ inc_table_of) }
{
    switch_table(alloc, &INC)
}
