// The standard streams.
use crate::start::StartFault;
use std::fs::File;
use std::os::fd::AsRawFd;

/// The descriptor of the error output, the last one of the standard streams.
const LAST: i32 = 2;

/// Opens the standard streams that the caller closed, so that no file of the mailbox takes the place of one: what is
/// written to the output would go into that file. Nothing can be read from what is opened, and nothing written there;
/// it stays open as long as the files are kept.
pub fn fill_closed(rt: &HostRuntime) -> Result<Vec<File>, StartFault> {
    let mut held = Vec::new(rt.alloc());
    for _ in 0..3 {
        let file = File::open(rt, "/dev/null")?;
        if file.as_raw_fd() > LAST {
            return Ok(held);
        }
        held.push(file)?;
    }
    Ok(held)
}
