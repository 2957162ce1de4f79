// The profile, as `main` reads it beside the top call.
use crate::start::StartFault;
use mh_profile::Entries;
use std::fs;
use std::io::ErrorKind;

/// A name below a directory, or the name itself where it is absolute.
pub fn below(rt: &HostRuntime, directory: &str, name: &str) -> Result<String, StartFault> {
    let alloc = rt.alloc();
    if name.starts_with('/') {
        return Ok(String::from_str(alloc, name)?);
    }
    let mut path = String::from_str(alloc, directory)?;
    path.push('/')?;
    path.push_str(name)?;
    Ok(path)
}

/// The profile's bytes; a profile that isn't there has none.
fn profile_bytes(rt: &HostRuntime, home: &str) -> Result<Vec<u8>, StartFault> {
    let path = below(rt, home, ".mh_profile")?;
    match fs::read(rt, path.as_str()) {
        Ok(bytes) => Ok(bytes),
        Err(error) if error.kind() == ErrorKind::NotFound => Ok(Vec::new(rt.alloc())),
        Err(error) => Err(StartFault::from(error)),
    }
}

/// The profile's entries.
pub fn read_profile(rt: &HostRuntime, home: &str) -> Result<Entries, StartFault> {
    let bytes = profile_bytes(rt, home)?;
    Ok(Entries::read(rt.alloc(), bytes.as_slice())?)
}
