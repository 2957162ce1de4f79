// Several folders are begun, one after another.
ghost use Rattle.std.specs.Prelude.{◌≡◌};
ghost use Rattle.file_plans.specs.Follows.{by_hand};
ghost use Rattle.refile_plans.specs.Gathering.{all_begun};
ghost use Rattle.refile_plans.specs.Gathers.{Gathers};

use folder_files::Files;
use mh_base::{FolderName, List};
use opened_folders::{Opened, open_made};
use std::alloc::Global;
use step_plans::{CommandFault, Hand};

/// The folders of these names are made where they are missing, and begun, after those before; where one can't be, those
/// before it were.
pub(crate) fn begin_all<F: Files>(
    alloc: Global,
    hand: &mut Hand,
    files: &mut F,
    names: &[FolderName],
    opened: &mut List<Opened>,
) -> Result<(), CommandFault>
    ensures plan { Gathers hand.old.run (all_begun hand.old.run hand.old.mail names.now opened.old)
        (by_hand hand.old.kept (F.state files.old)) (by_hand hand.new.kept (F.state files.new)) opened.new result }
    ensures same { (hand.new.run ≡ hand.old.run) × (hand.new.mail ≡ hand.old.mail) }
{
    for name in names {
        let one = open_made(alloc, hand, files, name)?;
        opened.push(one)?;
    }
    Ok(())
}
