// What is written before the first message.
ghost use Rattle.std.specs.Prelude.{◌≡◌, ℕ, IfOk};
ghost use Rattle.folder_files.specs.Story.{FilesState};
ghost use Rattle.file_plans.specs.Plan.{Hand as Kept};
ghost use Rattle.file_plans.specs.Follows.{Follows, by_out};
ghost use Rattle.step_plans.specs.CommandFaults.{command_cause};
ghost use Rattle.inc_plans.specs.Inc.{heading as heading_of, heading_told};

use file_plans::say;
use mh_base::{Bytes, FolderName, Sink};
use std::alloc::{AllocError, Global};
use step_plans::CommandFault;

fn heading(alloc: Global, folder: &FolderName) -> Result<Bytes, AllocError>
    ensures { IfOk result (λ b. b ≡ heading_of folder.now) }
{
    let mut text = Bytes::from_slice(alloc, b"Incorporating new mail into ")?;
    text.extend(folder.text().as_str().as_bytes())?;
    text.extend(b"...\n\n")?;
    Ok(text)
}

/// Writes into which folder mail is taken, but where nothing is to be written.
pub fn tell_heading<O: Sink>(
    alloc: Global,
    out: &mut O,
    silent: bool,
    folder: &FolderName,
) -> Result<(), CommandFault>
    ensures { (run : ℕ) (h : Kept) (f : FilesState)
        → Follows run command_cause (heading_told silent folder.now) (by_out h f (O.state out.old))
        (by_out h f (O.state out.new)) result }
{
    if silent {
        return Ok(());
    }
    let text = heading(alloc, folder)?;
    say(out, text.as_slice())?;
    Ok(())
}
