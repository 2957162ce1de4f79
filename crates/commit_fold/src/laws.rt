// The law on commits, as the contract of a function that does nothing.
ghost use Rattle.std.specs.Prelude.{◌≡◌, ℕ, Bool, true, List, []};
ghost use Rattle.folder_files.specs.Histories.{IsLegal, AreCareful, AreHonest, AreOrderly, world_after};
ghost use Rattle.folder_files.specs.Named.{is_committed};
ghost use Rattle.folder_files.specs.Worlds.{IsStart};
ghost use Rattle.folder_files.specs.declared.event.Event.{Event};
ghost use Rattle.folder_files.specs.declared.place.Place.{Place};
ghost use Rattle.folder_files.specs.declared.world.World.{World};
ghost use Rattle.step_plans.specs.Commits.{text_at};
ghost use Rattle.step_plans.specs.Starts.{HasNoneOfTheirs};
ghost use Rattle.commit_fold.specs.Folding.{AreChanges, OwnAreReplacing, IsFold, by, fold, marking};

/// Where each commit of a name is a change of the text that it replaces, the text of the name is the fold of the
/// changes of the commits that count, in their order, from the text of the start: all those of a run that synced after
/// them, and of any other run some of the first. So it is in each image, without some of the newest commits since the
/// last sync. `texts` has this where each commit changes its base, by honest locks and orderly runs; `marks` the same
/// of what the texts say; and `replacing` where each run promises of its own commits what they make of the text that
/// they replace.
pub fn fold_of_commits()
    ensures texts { (start : World) (past : List Event) (p : Place) (name : List ℕ) (change : ℕ → ℕ → List ℕ → List ℕ)
        → IsStart start → IsLegal start past → AreCareful past → HasNoneOfTheirs start past → AreHonest start past
        → AreOrderly past → is_committed p name ≡ true → AreChanges (by change) p name past
        → IsFold start p name
        (λ commits text. text ≡ fold change commits (text_at (world_after start []) p name)) past }
    ensures marks { (start : World) (past : List Event) (p : Place) (name : List ℕ) (says : List ℕ → List ℕ → ℕ → Bool)
        (mark : ℕ → ℕ → (List ℕ → ℕ → Bool) → List ℕ → ℕ → Bool) → IsStart start → IsLegal start past → AreCareful past
        → HasNoneOfTheirs start past → AreHonest start past → AreOrderly past → is_committed p name ≡ true
        → AreChanges (marking says mark) p name past
        → IsFold start p name
        (λ commits text. says text ≡ fold mark commits (says (text_at (world_after start []) p name))) past }
    ensures replacing { (start : World) (past : List Event) (p : Place) (name : List ℕ)
        (says : List ℕ → List ℕ → ℕ → Bool) (mark : ℕ → ℕ → (List ℕ → ℕ → Bool) → List ℕ → ℕ → Bool) → IsStart start
        → IsLegal start past → AreCareful past → HasNoneOfTheirs start past → is_committed p name ≡ true
        → ((run : ℕ) → OwnAreReplacing (marking says mark) run start p name past)
        → IsFold start p name
        (λ commits text. says text ≡ fold mark commits (says (text_at (world_after start []) p name))) past }
{}
