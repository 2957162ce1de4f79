// The law, as the contract of a function that does nothing.
ghost use Rattle.std.specs.Prelude.{◌≡◌, ℕ, true, List, []};
ghost use Rattle.folder_files.specs.Histories.{IsLegal, AreCareful, world_after};
ghost use Rattle.folder_files.specs.Named.{is_committed};
ghost use Rattle.folder_files.specs.Worlds.{IsStart};
ghost use Rattle.folder_files.specs.declared.event.Event.{Event};
ghost use Rattle.folder_files.specs.declared.place.Place.{Place};
ghost use Rattle.folder_files.specs.declared.world.World.{World};
ghost use Rattle.step_plans.specs.Commits.{text_at};
ghost use Rattle.step_plans.specs.Starts.{HasNoneOfTheirs};
ghost use Rattle.commit_fold.specs.Folding.{IsFold, Makes};
ghost use Rattle.commit_fold.specs.Pledged.{as_pledged};
ghost use Rattle.call_fold.specs.Calls.{Calling, AreCalls, pledges_of};

/// Where each run that commits is a call that commits as the clause `keeps` of `mh` says of its words, the text of a
/// folder's sequences, and of the context, is what the commits that count make of the text of the start, one after
/// another in their order: each makes of the text before it what its call may make of it with so many commits behind
/// it. All commits of a call count none of whose steps failed and that synced after them; of another, some of its
/// first. So it is in each image too, without some of the newest commits since the last sync.
pub fn fold_of_calls()
    ensures { (start : World) (past : List Event) (p : Place) (name : List ℕ) (calls : ℕ → Calling) → IsStart start
        → IsLegal start past → AreCareful past → HasNoneOfTheirs start past → is_committed p name ≡ true
        → AreCalls calls start past
        → IsFold start p name
        (Makes (as_pledged (pledges_of calls) p name past) (text_at (world_after start []) p name)) past }
{}
