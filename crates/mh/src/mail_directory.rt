// Where the mail directory is, as the first page of help says it.
use crate::profile::{below, read_profile};
use crate::start::StartFault;
use mh_profile::Entries;
use std::fs;

/// The path of the mail directory by these entries.
fn named(rt: &HostRuntime, home: &str, profile: &Entries) -> Result<String, StartFault> {
    match profile.get(b"Path")? {
        Some(path) => below(
            rt,
            home,
            std::str::from_utf8(path.as_slice()).unwrap_or("Mail"),
        ),
        None => below(rt, home, "Mail"),
    }
}

/// The path of the mail directory; a profile that can't be read counts as none.
fn mail_directory(rt: &HostRuntime, home: &str) -> Result<String, StartFault> {
    match read_profile(rt, home) {
        Ok(profile) => named(rt, home, &profile),
        Err(StartFault::Memory) => Err(StartFault::Memory),
        Err(_) => below(rt, home, "Mail"),
    }
}

/// What to do where there is no mail directory.
const MISSING: &str = "\
It isn't there yet: mh inc makes it when it takes new mail in. If your mail is
elsewhere, a line such as `Path: mail` in .mh_profile of your home directory
says where.
";

/// Where the mail directory is, and what to do where it is missing.
pub fn told_mail_directory(rt: &HostRuntime, home: &str) -> Result<String, StartFault> {
    let path = mail_directory(rt, home)?;
    let mut text = String::from_str(rt.alloc(), "Your mail directory is ")?;
    text.push_str(path.as_str())?;
    text.push_str(".\n")?;
    if !fs::exists(rt, path.as_str()).unwrap_or(true) {
        text.push_str(MISSING)?;
    }
    Ok(text)
}
