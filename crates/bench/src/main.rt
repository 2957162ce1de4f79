//! Prints how fast what its word names is done: `drops`, `codes`, `text`, `formats`, `ranges` or `room`. Without a word
//! it does nothing, since times differ from run to run.
#![tactic(auto)]

mod codes;
mod drops;
mod formats;
mod long;
mod message_files;
mod ranges;
mod rates;
mod room;
mod text;

use std::env;
use std::test::Fail;

fn measure(rt: &HostRuntime, word: &str) -> Result<(), Fail> {
    match word {
        "drops" => drops::measure(rt, rt.alloc()),
        "codes" => codes::measure(rt, rt.alloc()),
        "text" => text::measure(rt, rt.alloc()),
        "formats" => formats::measure(rt, rt.alloc()),
        "ranges" => ranges::measure(rt, rt.alloc()),
        "room" => room::measure(rt, rt.alloc()),
        _ => Err("one of drops, codes, text, formats, ranges, room".into()),
    }
}

fn main(rt: HostRuntime) -> Result<(), Fail> {
    for word in env::args(&rt)?.skip(1) {
        measure(&rt, word.as_str())?;
    }
    Ok(())
}
