// Numbers of runs, counted once.
ghost use Rattle.std.specs.Prelude.{◌≡◌, ◌≤◌, [], length, take, slice_get, IfOk};
ghost use Rattle.mh_sequences.specs.Counts.{AreEnds, passed_at};
ghost use Rattle.mh_sequences.specs.Runs.{AreRuns, numbers_of};

use crate::Run;
use crate::runs::{count, number_at, total};
use mh_base::MsgNum;
use std::alloc::{AllocError, Global};

/// How many numbers there are up to the end of each of the first runs, so far as they were counted.
#[derive(Drop)]
pub(crate) struct Counts {
    ends: Vec<u32>,
}

impl Counts {
    pub(crate) fn new(alloc: Global) -> Counts
        ensures { result.ends.items ≡ [] }
    {
        Counts {
            ends: Vec::new(alloc),
        }
    }

    pub(crate) fn copy(&self, alloc: Global) -> Result<Counts, AllocError>
        ensures { IfOk result (λ c. c.ends.items ≡ self.now.ends.items) }
    {
        Ok(Counts {
            ends: self.ends.as_slice().to_vec(alloc)?,
        })
    }

    /// Forgets the runs from this place on.
    pub(crate) fn forget_from(&mut self, place: usize)
        ensures { self.new.ends.items ≡ take place self.old.ends.items }
    {
        self.ends.truncate(place);
    }

    /// How many numbers stand before the run at this place.
    fn passed(&self, place: usize) -> u64
        requires { place ≤ length self.now.ends.items }
        ensures { result ≡ passed_at self.now.ends.items place }
    {
        if place == 0 {
            0
        } else {
            u64::from(self.ends[place - 1])
        }
    }

    /// Counts one more run, where one is left and there is memory for it.
    fn count_one(&mut self, runs: &[Run])
        requires runs { AreRuns runs.now }
        requires ends { AreEnds 0 self.old.ends.items runs.now }
        ensures { AreEnds 0 self.new.ends.items runs.now }
    {
        let place = self.ends.len();
        if place < runs.len() {
            let end = self.passed(place) + count(&runs[place]);
            let _ = self.ends.push(end as u32);
        }
    }

    /// Counts two more runs, so that all are counted again some changes after one in the middle.
    pub(crate) fn count_on(&mut self, runs: &[Run])
        requires runs { AreRuns runs.now }
        requires ends { AreEnds 0 self.old.ends.items runs.now }
        ensures { AreEnds 0 self.new.ends.items runs.now }
    {
        self.count_one(runs);
        self.count_one(runs);
    }

    /// How many numbers the runs before this place have.
    pub(crate) fn before(&self, runs: &[Run], place: usize) -> u64
        requires runs { AreRuns runs.now }
        requires ends { AreEnds 0 self.now.ends.items runs.now }
        requires place { place ≤ length runs.now }
        ensures { result ≡ length (numbers_of (take place runs.now)) }
    {
        let counted = place.min(self.ends.len());
        self.passed(counted) + total(&runs[counted..place])
    }

    /// The number at this place among all numbers of the runs.
    pub(crate) fn number_at(&self, runs: &[Run], index: u64) -> Option<MsgNum>
        requires runs { AreRuns runs.now }
        requires ends { AreEnds 0 self.now.ends.items runs.now }
        ensures { result ≡ slice_get (numbers_of runs.now) index }
    {
        let place = self.ends.partition_point(|end| u64::from(*end) <= index);
        let (_, left) = runs.split_at(place);
        number_at(left, index - self.passed(place))
    }
}
