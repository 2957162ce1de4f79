// A new file at a hand.
ghost use Rattle.std.specs.Prelude.{◌≡◌, OnOk};
ghost use Rattle.file_plans.specs.Follows.{Follows, by_hand};
ghost use Rattle.step_plans.specs.PlanFaults.{plan_cause};
ghost use Rattle.step_plans.specs.Replacing.{replaced, written};

use crate::replacing::replace;
use crate::writing::write;
use crate::{Hand, PlanFault};
use folder_files::{Files, Place};
use mh_base::{Bytes, Name};
use std::alloc::Global;

/// A new file with these bytes takes a name's place, and stays there: it is made under the run's next temporary name
/// and made safe, then renamed, and then the directory is made safe.
pub fn replace_file<F: Files>(
    alloc: Global,
    hand: &mut Hand,
    files: &mut F,
    place: &Place,
    name: &Name,
    bytes: &mut Bytes,
) -> Result<(), PlanFault>
    ensures plan { Follows hand.old.run plan_cause (replaced hand.old.run place.now name.now bytes.old)
        (by_hand hand.old.kept (F.state files.old)) (by_hand hand.new.kept (F.state files.new)) result }
    ensures same { (hand.new.run ≡ hand.old.run) × (hand.new.mail ≡ hand.old.mail) }
{
    let run = hand.run();
    replace(alloc, run, &mut hand.kept, files, place, name, bytes)
}

/// A file with these bytes is made under the run's next temporary name, and made safe; this is its name.
pub fn write_file<F: Files>(
    alloc: Global,
    hand: &mut Hand,
    files: &mut F,
    place: &Place,
    bytes: &mut Bytes,
) -> Result<Name, PlanFault>
    ensures plan { Follows hand.old.run plan_cause (written hand.old.run place.now bytes.old)
        (by_hand hand.old.kept (F.state files.old)) (by_hand hand.new.kept (F.state files.new)) result }
    ensures same { (hand.new.run ≡ hand.old.run) × (hand.new.mail ≡ hand.old.mail) }
    ensures bytes { OnOk result (bytes.new ≡ bytes.old) }
{
    let run = hand.run();
    write(alloc, run, &mut hand.kept, files, place, bytes)
}
