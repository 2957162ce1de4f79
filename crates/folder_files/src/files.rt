// Files that make steps.
ghost use Rattle.std.specs.Prelude.{◌≤◌, IfOk, MatchResult};
ghost use Rattle.folder_files.specs.Rows.{IsAnswerOf};
ghost use Rattle.folder_files.specs.Story.{FilesState, Asks, Waits, Counts};

use crate::{Answer, Step};
use std::alloc::{AllocError, Global};

/// Files on which runs make steps. Their count of faults never falls.
pub trait Files {
    /// What is told of the past, where it is told, and the count of faults.
    ghost state: { Self → FilesState };

    /// Makes one step for this run. Where files tell their story, it goes on by what others did and
    /// then by this step with its answer. After want of memory the step was not made.
    fn act(&mut self, alloc: Global, run: u128, step: &Step) -> Result<Answer, AllocError>
        ensures step { MatchResult result (λ a. Asks run (state self.old).story (state self.new).story step.now a)
            (λ _. Waits run (state self.old).story (state self.new).story) }
        ensures row { IfOk result (λ a. IsAnswerOf step.now a) }
        ensures cause { MatchResult result (λ a. Counts (state self.old).faults (state self.new).faults a)
            (λ _. (state self.old).faults ≤ (state self.new).faults) };
}
