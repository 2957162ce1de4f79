//! Rows of calls of the crates of messages: codes, dates, texts, drops, parts, drafts, formats and lines. `stdin` names
//! calls and what they are given; `stdout` is what they give. docs/ROWS.md tells the lines.
#![tactic(auto)]

mod codes;
mod dates;
mod drafts;
mod drops;
mod formats;
mod lines;
mod mime;
mod order;
mod parts;
mod rows;
mod texts;

use row_text::play;
use rows::MessageCalls;
use std::io::{self, Write};
use std::test::Fail;

fn main(rt: HostRuntime) -> Result<(), Fail> {
    let alloc = rt.alloc();
    let rows = io::read_to_string(alloc, rt.stdin())?;
    let told = play(alloc, rows.as_str(), &mut MessageCalls::new(alloc))?;
    rt.stdout().write_all(told.as_slice())?;
    Ok(())
}
