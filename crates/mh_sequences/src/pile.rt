// Many runs put in order at once.
ghost use Rattle.std.specs.Prelude.{◌≡◌, ◌≤◌, ◌||◌, ℕ, [], IfOk, OnOk};
ghost use Rattle.std.specs.List.{All};
ghost use Rattle.mh_sequences.specs.Runs.{AreRuns, has, inside, IsRun};

use crate::{NumSet, Run};
use std::alloc::{AllocError, Global};
use std::marker::Model;

/// A pile of so many runs, twice what a set can have, is put in order before it takes more.
const MANY: usize = 1_000_000;

/// Runs in any order, of which a set is made when all are there. Contracts see the runs.
///
/// Many runs become a set faster so than when each is put into the set.
#[derive(Drop)]
pub struct Pile {
    alloc: Global,
    runs: Vec<Run>,
}

impl Model for Pile {
    ghost use Rattle.std.specs.Prelude.{List};
    ghost use Rattle.std.specs.List.{All};
    ghost use Rattle.mh_sequences.specs.declared.run.Run.{Run};
    ghost use Rattle.mh_sequences.specs.Runs.{IsRun};

    ghost Value = { List Run };

    ghost view = { λ p. p.runs.items };

    ghost invariant = { λ p. All IsRun p.runs.items };
}

/// The set of the numbers of runs, which end up ascending.
fn set_of(alloc: Global, runs: &mut Vec<Run>) -> Result<NumSet, AllocError>
    requires { All IsRun runs.old.items }
    ensures set { IfOk result (λ s. (n : ℕ) → has s.runs n ≡ has runs.old.items n) }
    ensures valid { All IsRun runs.new.items }
{
    runs.sort_unstable_by_key(|run| run.from.get());
    let mut set = NumSet::new(alloc);
    for run in runs.as_slice() {
        set.insert_run(*run)?;
    }
    Ok(set)
}

impl Pile {
    pub fn new(alloc: Global) -> Pile
        ensures { result ≡ [] }
    {
        Pile {
            alloc,
            runs: Vec::new(alloc),
        }
    }

    fn settle(&mut self) -> Result<(), AllocError>
        ensures { OnOk result ((n : ℕ) → has self.new n ≡ has self.old n) }
    {
        let set = set_of(self.alloc, &mut self.runs)?;
        self.runs = set.into_runs();
        Ok(())
    }

    fn push(&mut self, run: Run) -> Result<(), AllocError>
        requires { run.from ≤ run.to }
        ensures { OnOk result ((n : ℕ) → has self.new n ≡ (inside run n || has self.old n)) }
    {
        self.runs.push(run)?;
        Ok(())
    }

    /// Adds all numbers of a run.
    pub fn add_run(&mut self, run: Run) -> Result<(), AllocError>
        requires { run.from ≤ run.to }
        ensures { OnOk result ((n : ℕ) → has self.new n ≡ (inside run n || has self.old n)) }
    {
        if self.runs.len() >= MANY {
            self.settle()?;
        }
        self.push(run)
    }

    /// Adds all numbers of a set.
    pub fn add_set(&mut self, set: &NumSet) -> Result<(), AllocError>
        ensures { OnOk result ((n : ℕ) → has self.new n ≡ (has self.old n || has set.now.runs n)) }
    {
        for run in set.as_slice() {
            self.add_run(*run)?;
        }
        Ok(())
    }

    /// The set of all numbers that were added.
    pub fn into_set(self) -> Result<NumSet, AllocError>
        ensures numbers { IfOk result (λ s. (n : ℕ) → has s.runs n ≡ has self n) }
        ensures valid { IfOk result (λ s. AreRuns s.runs) }
    {
        let Pile { alloc, mut runs } = self;
        set_of(alloc, &mut runs)
    }
}
