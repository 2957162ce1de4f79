// The current folder.
ghost use Rattle.std.specs.Prelude.{◌≡◌, IfOk};
ghost use Rattle.file_plans.specs.Follows.{Follows, by_hand};
ghost use Rattle.step_plans.specs.ContextCommit.{AreChanges};
ghost use Rattle.step_plans.specs.CommandFaults.{command_cause};
ghost use Rattle.command_stages.specs.Current.{current_change as current_change_of, made_current};

use crate::fault_in;
use folder_files::Files;
use mh_base::{Bytes, Duplicate, FolderName, List};
use std::alloc::{AllocError, Global};
use step_plans::{ChangeEntry, ChangeEntryList, CommandFault, Hand, commit_context};

fn current_change(alloc: Global, folder: &FolderName) -> Result<ChangeEntryList, AllocError>
    ensures changes { IfOk result (λ changes. changes ≡ current_change_of folder.now) }
    ensures valid { IfOk result (λ changes. AreChanges changes) }
{
    let mut changes = List::new(alloc);
    changes.push(ChangeEntry {
        name: Bytes::from_slice(alloc, b"Current-Folder")?,
        value: Some(Bytes::from_slice(alloc, folder.text().as_str().as_bytes())?),
    })?;
    Ok(changes)
}

/// Makes the folder the current one, where the context says otherwise.
pub fn make_current<F: Files>(
    alloc: Global,
    hand: &mut Hand,
    files: &mut F,
    folder: &FolderName,
) -> Result<(), CommandFault>
    ensures plan { Follows hand.old.run command_cause (made_current hand.old.run hand.old.mail folder.now)
        (by_hand hand.old.kept (F.state files.old)) (by_hand hand.new.kept (F.state files.new)) result }
    ensures run { hand.new.run ≡ hand.old.run }
    ensures mail { hand.new.mail ≡ hand.old.mail }
{
    let changes = current_change(alloc, folder)?;
    let name = folder.duplicate(alloc)?;
    match commit_context(alloc, hand, files, &changes) {
        Ok(()) => Ok(()),
        Err(fault) => Err(fault_in(name, fault)),
    }
}
