//! Rows of calls of the crates of words, the profile, sequences and ranges. `stdin` names calls and what they are
//! given; `stdout` is what they give. docs/ROWS.md tells the lines.
#![tactic(auto)]

mod numbers;
mod plain_set;
mod profile;
mod ranges;
mod rows;
mod sequences;
mod words;

use row_text::play;
use rows::ValueCalls;
use std::io::{self, Write};
use std::test::Fail;

fn main(rt: HostRuntime) -> Result<(), Fail> {
    let alloc = rt.alloc();
    let rows = io::read_to_string(alloc, rt.stdin())?;
    let told = play(alloc, rows.as_str(), &mut ValueCalls)?;
    rt.stdout().write_all(told.as_slice())?;
    Ok(())
}
