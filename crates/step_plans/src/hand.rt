// A run, its mail directory, and what it keeps.
ghost use Rattle.std.specs.Prelude.{◌≡◌, ◌<◌, ◌≤◌, ◌^◌, MatchOption, None, Some};
ghost use Rattle.file_plans.specs.Plan.{fresh};
ghost use Rattle.step_plans.specs.Hands.{keeping, used, knowing};

use crate::keeping::Kept;
use mh_base::Bytes;
use mh_profile::Entries;
use std::marker::Model;

/// What a command that changes something carries from step to step: its run's number, its mail directory, the
/// number of its next temporary name, and the context's entries as it last read or wrote them.
#[derive(Drop)]
pub struct Hand {
    pub(crate) run: u128,
    pub(crate) mail: Bytes,
    pub(crate) kept: Kept,
}

impl Model for Hand {
    ghost use Rattle.step_plans.specs.Hands.{Run};

    ghost Value = { Run };

    ghost view = { λ s. record { run = s.run; mail = s.mail; kept = s.kept } };
}

impl Hand {
    /// A run's hand at its start, over the mail directory at this path.
    pub fn new(run: u128, mail: Bytes) -> Hand
        ensures run { result.run ≡ run }
        ensures mail { result.mail ≡ mail }
        ensures kept { result.kept ≡ fresh }
    {
        Hand {
            run,
            mail,
            kept: Kept::new(),
        }
    }

    pub fn run(&self) -> u128
        ensures { result ≡ self.now.run }
    {
        self.run
    }

    pub fn mail(&self) -> &Bytes
        ensures { result.now ≡ self.now.mail }
    {
        &self.mail
    }

    /// The number of the next temporary name, which is then used; none after 2^64 names.
    pub fn temp(&mut self) -> Option<u64>
        ensures { MatchOption result ((2 ^ 64 ≤ self.old.kept.next) × (self.new ≡ self.old))
            (λ k. (k ≡ self.old.kept.next) × (self.old.kept.next < 2 ^ 64)
            × (self.new ≡ keeping self.old (used self.old.kept))) }
    {
        self.kept.temp()
    }

    /// The context has these entries.
    pub fn saw_context(&mut self, entries: Entries)
        ensures { self.new ≡ keeping self.old (knowing entries self.old.kept) }
    {
        self.kept.saw_context(entries);
    }

    /// The context's entries as this run last read or wrote them.
    pub fn context(&self) -> Option<&Entries>
        ensures { MatchOption result (self.now.kept.context ≡ None)
            (λ entries. self.now.kept.context ≡ Some entries.now) }
    {
        self.kept.context()
    }
}
