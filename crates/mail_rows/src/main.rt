//! Rows of commands over a mailbox in memory. `stdin` gives mailboxes, says what else happens, runs commands and asks
//! to be shown what they leave; `stdout` is what is to be shown. docs/ROWS.md tells the lines.
#![tactic(auto)]

mod calls;
mod commands;
mod play;
mod stretches;
mod sweep;

use play::told_by;
use std::io::{self, Write};
use std::test::Fail;

fn main(rt: HostRuntime) -> Result<(), Fail> {
    let alloc = rt.alloc();
    let text = io::read_to_string(alloc, rt.stdin())?;
    let told = told_by(alloc, text.as_str())?;
    rt.stdout().write_all(told.as_slice())?;
    Ok(())
}
