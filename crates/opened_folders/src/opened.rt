// A folder that is begun.
ghost use Rattle.std.specs.Prelude.{◌≡◌, ◌≤◌, OnOk};
ghost use Rattle.file_plans.specs.Follows.{Follows, by_hand};
ghost use Rattle.step_plans.specs.Hands.{mail_place};
ghost use Rattle.step_plans.specs.PlanFaults.{plan_cause};
ghost use Rattle.mh_sequences.specs.Runs.{AreRuns, last_in};
ghost use Rattle.sequence_commits.specs.Committing.{marks_committed};
ghost use Rattle.sequence_commits.specs.Marking.{marked_by_all};
ghost use Rattle.opening_plans.specs.Opening.{with_sequences};

use folder_files::{Files, Place};
use held_messages::HomeList;
use mh_base::{FolderName, MsgNum};
use mh_sequences::{Mark, NumSet, Sequences};
use sequence_commits::commit_sequences;
use std::alloc::Global;
use std::marker::Model;
use step_plans::{Hand, PlanFault};

/// A folder whose lock this run has: the numbers of its messages, its sequences, and where each message stands now that
/// another run held aside there.
#[derive(Drop)]
pub struct Opened {
    pub(crate) place: Place,
    pub(crate) folder: FolderName,
    pub(crate) listing: NumSet,
    pub(crate) sequences: Sequences,
    pub(crate) ends: HomeList,
}

impl Model for Opened {
    ghost use Rattle.opening_plans.specs.Opening.{Opened as OpenedValue, opened_of};

    ghost Value = { OpenedValue };

    ghost view = { λ o. opened_of o.place o.folder o.listing.runs o.sequences o.ends };
}

impl Opened {
    pub fn place(&self) -> &Place
        ensures { result.now ≡ self.now.place }
    {
        &self.place
    }

    pub fn folder(&self) -> &FolderName
        ensures { result.now ≡ self.now.folder }
    {
        &self.folder
    }

    /// The numbers of its messages.
    pub fn listing(&self) -> &NumSet
        ensures { result.now.runs ≡ self.now.listing }
    {
        &self.listing
    }

    /// The number of its last message, or 0 where it has none.
    pub fn highest(&self) -> u32
        ensures value { result ≡ last_in self.now.listing }
        ensures range { result ≤ 999999 }
    {
        match self.listing.last() {
            Some(number) => number.get(),
            None => 0,
        }
    }

    /// Its sequences as this run last read or committed them, without absent numbers, and its current message.
    pub fn sequences(&self) -> &Sequences
        ensures { result.now ≡ self.now.sequences }
    {
        &self.sequences
    }

    /// Where each message stands now that another run held aside, by its number and then by that run; none where it
    /// stays held.
    pub fn ends(&self) -> &[Option<MsgNum>]
        ensures { result.now ≡ self.now.ends }
    {
        self.ends.as_slice()
    }
}

/// Does what these marks say with the folder's sequences, and commits what they are then: the text of the folder, and
/// then the private ones in the context of the run's mail directory, under its lock. No step where the marks change
/// nothing.
pub fn commit_marks<F: Files>(
    alloc: Global,
    hand: &mut Hand,
    files: &mut F,
    opened: &mut Opened,
    marks: &[Mark],
) -> Result<(), PlanFault>
    ensures plan { Follows hand.old.run plan_cause
        (marks_committed hand.old.run opened.old.place
        (mail_place hand.old) opened.old.folder opened.old.sequences marks.now)
        (by_hand hand.old.kept (F.state files.old)) (by_hand hand.new.kept (F.state files.new)) result }
    ensures place { opened.new.place ≡ opened.old.place }
    ensures marked { OnOk result
        (opened.new ≡ with_sequences (marked_by_all marks.now opened.old.sequences) opened.old) }
    ensures same { (hand.new.run ≡ hand.old.run) × (hand.new.mail ≡ hand.old.mail) }
{
    commit_sequences(
        alloc,
        hand,
        files,
        &opened.place,
        &opened.folder,
        &mut opened.sequences,
        marks,
    )
}
