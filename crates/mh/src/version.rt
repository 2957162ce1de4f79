// What the program is.
use std::alloc::{AllocError, Global};
use std::{env, fs};

const NAME: &str = "mh 0.1.0\n";

/// Where the program was not installed, nobody told it where it comes from.
const UNKNOWN: &str = "of a commit that nobody told: install.sh writes it beside the program\n";

/// The directory of the program, if the system tells it.
fn own_directory(rt: &HostRuntime) -> Option<String> {
    let program = env::current_exe(rt).ok()?;
    let directory = program.as_path().parent()?;
    String::from_str(rt.alloc(), directory.as_str()).ok()
}

/// What install.sh wrote of the program, below the directory above that of the program.
fn installed(rt: &HostRuntime) -> Option<String> {
    let mut path = own_directory(rt)?;
    path.push_str("/../share/mh/version").ok()?;
    fs::read_to_string(rt, path.as_str()).ok()
}

fn joined(alloc: Global, more: &str) -> Result<String, AllocError> {
    let mut text = String::from_str(alloc, NAME)?;
    text.push_str(more)?;
    Ok(text)
}

/// The version; and the commit, its date and the kit that proved it.
pub fn version(rt: &HostRuntime) -> Result<String, AllocError> {
    match installed(rt) {
        Some(more) => joined(rt.alloc(), more.as_str()),
        None => joined(rt.alloc(), UNKNOWN),
    }
}
