// A copy in the place of a link that the system doesn't allow. Files at numbers are never written again, so only their
// bytes count: the name leads to a file of the user's own with the same bytes, as safe as the first.
use crate::fault::{Found, HostFault, after_change, changed, fault, looked_up, must_be_there};
use crate::new_file::create_new;
use crate::paths::below;
use mh_base::{Entry, entry_name};
use std::alloc::Global;
use std::fs::File;
use std::io::{Read, Write};
use std::{fs, str};

/// The last of a run's temporary names, which none of its Creates comes to: they count from below. What a killed run
/// leaves there goes as any temporary name does, where the folder is begun.
pub(crate) const COPY: u64 = u64::MAX;

/// The path of a temporary name of this run beside another path.
pub(crate) fn temp_beside(
    alloc: Global,
    path: &str,
    run: u128,
    count: u64,
) -> Result<String, HostFault> {
    let directory = match path.rsplit_once('/') {
        Some((directory, _)) => directory,
        None => ".",
    };
    let name = entry_name(alloc, &Entry::Temp(run, count))?;
    match str::from_utf8(name.bytes()) {
        Ok(name) => below(alloc, directory, name),
        Err(_) => Err(fault("a temporary name that is no UTF-8")),
    }
}

/// All bytes of a plain file.
fn read_plain(rt: &HostRuntime, alloc: Global, path: &str) -> Result<Found<Vec<u8>>, HostFault> {
    match looked_up(fs::metadata(rt, path))? {
        Found::Gone => return Ok(Found::Gone),
        found => {
            if !must_be_there(found)?.is_file() {
                return Err(fault("no plain file"));
            }
        }
    }
    let mut file = File::open(rt, path)?;
    let mut bytes = Vec::new(alloc);
    file.read_to_end(&mut bytes)?;
    Ok(Found::There(bytes))
}

/// A new file with these bytes, which is safe.
fn write_safe(rt: &HostRuntime, path: &str, bytes: &[u8]) -> Result<(), HostFault> {
    let mut file = changed(create_new(rt, path))?;
    changed(file.write_all(bytes))?;
    changed(file.sync_all())
}

fn link_safe(rt: &HostRuntime, temp: &str, to: &str, bytes: &[u8]) -> Result<Found<()>, HostFault> {
    write_safe(rt, temp, bytes)?;
    after_change(looked_up(fs::hard_link(rt, temp, to)))
}

/// A second name for a copy of a file that can be read.
pub(crate) fn link_copy(
    rt: &HostRuntime,
    alloc: Global,
    run: u128,
    from: &str,
    to: &str,
) -> Result<Found<()>, HostFault> {
    let temp = temp_beside(alloc, from, run, COPY)?;
    let Found::There(bytes) = read_plain(rt, alloc, from)? else {
        return Ok(Found::Gone);
    };
    let linked = link_safe(rt, temp.as_str(), to, bytes.as_slice());
    let removed = changed(fs::remove_file(rt, temp.as_str()));
    let found = linked?;
    removed?;
    Ok(found)
}
