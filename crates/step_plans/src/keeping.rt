// What a run keeps between its steps.
ghost use Rattle.std.specs.Prelude.{◌≡◌, ◌<◌, ◌≤◌, ◌^◌, ℕ, MatchOption, None, Some};
ghost use Rattle.folder_files.specs.Story.{FilesState};
ghost use Rattle.file_plans.specs.Follows.{Follows, by_hand};
ghost use Rattle.file_plans.specs.Plan.{fresh};
ghost use Rattle.step_plans.specs.Hands.{used, knowing, known};
ghost use Rattle.step_plans.specs.PlanFaults.{plan_cause};

use crate::PlanFault;
use mh_profile::Entries;
use std::marker::Model;

/// How many temporary names a run has.
const NAMES: u128 = 18_446_744_073_709_551_616;

/// The number of a run's next temporary name, and the context's entries as it last read or wrote them.
#[derive(Drop)]
pub(crate) struct Kept {
    next: u128,
    context: Option<Entries>,
}

impl Model for Kept {
    ghost use Rattle.file_plans.specs.Plan.{Hand};

    ghost Value = { Hand };

    ghost view = { λ s. record { next = s.next; context = s.context } };
}

impl Kept {
    /// At the start of a run.
    pub(crate) fn new() -> Kept
        ensures { result ≡ fresh }
    {
        Kept {
            next: 0,
            context: None,
        }
    }

    /// The number of the next temporary name, while there is one.
    pub(crate) fn temp(&mut self) -> Option<u64>
        ensures { MatchOption result ((2 ^ 64 ≤ self.old.next) × (self.new ≡ self.old))
            (λ k. (k ≡ self.old.next) × (self.old.next < 2 ^ 64) × (self.new ≡ used self.old)) }
    {
        if self.next < NAMES {
            let number = self.next as u64;
            self.next += 1;
            Some(number)
        } else {
            None
        }
    }

    pub(crate) fn saw_context(&mut self, entries: Entries)
        ensures { self.new ≡ knowing entries self.old }
    {
        self.context = Some(entries);
    }

    /// The context's entries as this run last read or wrote them.
    pub(crate) fn context(&self) -> Option<&Entries>
        ensures { MatchOption result (self.now.context ≡ None) (λ entries. self.now.context ≡ Some entries.now) }
    {
        self.context.as_ref()
    }
}

/// The context has these entries from here on.
pub(crate) fn know(kept: &mut Kept, entries: Entries) -> Result<(), PlanFault>
    ensures { (run : ℕ) (f : FilesState)
        → Follows run plan_cause (known entries) (by_hand kept.old f) (by_hand kept.new f) result }
{
    kept.saw_context(entries);
    Ok(())
}
