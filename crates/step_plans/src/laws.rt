// The laws, each the contract of a function that does nothing.
ghost use Rattle.std.specs.Prelude.{◌≡◌, ◌⊎◌, ℕ, Bool, true, List, ◌∷◌, length, Some};
ghost use Rattle.mh_base.specs.Entries.{kind_of};
ghost use Rattle.folder_files.specs.Careful.{IsCareful};
ghost use Rattle.folder_files.specs.CrashImage.{IsCrashImage};
ghost use Rattle.folder_files.specs.Deeds.{WasDone};
ghost use Rattle.folder_files.specs.Directory.{now_in};
ghost use Rattle.folder_files.specs.Steps.{made};
ghost use Rattle.folder_files.specs.Histories.{IsLegal, IsLive, AreCareful, AreHonest, AreOrderly, Changes, own, world_after};
ghost use Rattle.folder_files.specs.Named.{is_committed, is_number};
ghost use Rattle.folder_files.specs.Worlds.{IsStart, WorldMap};
ghost use Rattle.folder_files.specs.declared.event.After.{After};
ghost use Rattle.folder_files.specs.declared.event.After.TheVariants.{Before};
ghost use Rattle.folder_files.specs.declared.event.Event.{Event};
ghost use Rattle.folder_files.specs.declared.event.Event.TheVariants.{Act, Crash};
ghost use Rattle.folder_files.specs.declared.place.FilePath.{FilePath};
ghost use Rattle.folder_files.specs.declared.place.Place.{Place};
ghost use Rattle.folder_files.specs.declared.step.Answer.{Answer};
ghost use Rattle.folder_files.specs.declared.step.Answer.TheVariants.{Failed};
ghost use Rattle.folder_files.specs.declared.step.Step.{Step};
ghost use Rattle.folder_files.specs.declared.step.Step.TheVariants.{Create, CutDrop, Rename};
ghost use Rattle.folder_files.specs.declared.world.World.{World};
ghost use Rattle.step_plans.specs.Commits.{text_at, HadText, IsBase, IsCommitted, IsSettled, HasTextFirmly, TriesCommit};
ghost use Rattle.step_plans.specs.Cutting.{IsUncut, AreDurable};
ghost use Rattle.step_plans.specs.Durable.{HasPutAndSynced, IsDurable};
ghost use Rattle.step_plans.specs.MailInvariant.{MailInvariant};
ghost use Rattle.step_plans.specs.Moments.{Leads, IsNoCrash, IsTriedAt};
ghost use Rattle.step_plans.specs.NoLoss.{LosesNothing};
ghost use Rattle.step_plans.specs.Starts.{HasNoneOfTheirs};

/// Whatever careful runs do, in whatever order, with crashes before, after and within any step: the invariant holds,
/// and no message is lost.
pub fn no_loss()
    ensures invariant { (start : World) (past : List Event) → IsStart start → IsLegal start past → AreCareful past
        → HasNoneOfTheirs start past → MailInvariant start past }
    ensures kept { (start : World) (past : List Event) → IsStart start → IsLegal start past → AreCareful past
        → HasNoneOfTheirs start past → LosesNothing start past }
{}

/// No careful step makes a number that leads to a file lead to another, nor does one in whose middle the machine stops,
/// in the world that it would have made.
pub fn never_taken()
    ensures step { (start : World) (past : List Event) (run : ℕ) (s : Step) (a : Answer) (m : After)
        → IsLegal start (Act run s a m ∷ past) → (p : Place) → (Changes p s → IsCareful run (own run past) s)
        → (number : List ℕ) (f g : ℕ) → is_number (kind_of number) ≡ true → Leads start past p number f
        → Leads start (Act run s a m ∷ past) p number g → f ≡ g }
    ensures within { (start : World) (past : List Event) (run : ℕ) (s : Step) → IsLive run (world_after start past)
        → (p : Place) → (Changes p s → IsCareful run (own run past) s) → (number : List ℕ) (f g : ℕ)
        → is_number (kind_of number) ≡ true → Leads start past p number f
        → now_in ((made (world_after start past) run s).directories p) number ≡ Some g → f ≡ g }
{}

/// What a run put and synced by its own account is durable from then on, also after the run has ended.
pub fn durable_by_own_steps()
    ensures { (start : World) (past : List Event) → IsStart start → IsLegal start past → AreCareful past
        → HasNoneOfTheirs start past → (run : ℕ) (p : Place) (bytes : List ℕ)
        → HasPutAndSynced run p bytes (own run past) → (f : ℕ) × IsDurable start p f bytes past }
{}

/// Where a cut of a mail drop is tried at the length that the drop then has, each message that it then holds is
/// durable, if no run has cut it since this run last began to read it.
pub fn cut_drops_are_stored()
    ensures { (start : World) (past : List Event) (run : ℕ) (f : FilePath) (n : ℕ) (a : Answer) (m : After)
        → IsStart start → IsLegal start (Act run (CutDrop f n) a m ∷ past)
        → AreCareful (Act run (CutDrop f n) a m ∷ past) → HasNoneOfTheirs start (Act run (CutDrop f n) a m ∷ past)
        → (moment : List Event) (bytes : List ℕ) → IsTriedAt start run moment past → IsUncut start run f past
        → (world_after start moment).outside f ≡ Some bytes → length bytes ≡ n → AreDurable start moment bytes }
{}

/// Under honest locks and with orderly runs each commit is made from the text that it replaces, and nothing else
/// changes that text but a crash: a folder's sequences, and the context, are the fold of the commits in lock order. A
/// commit that was synced stays until another; after a crash the text is one that the file had since the last sync. A
/// commit that failed leaves the text that was there, or its own; one in whose middle the machine stopped leaves one
/// that the file had since the last sync, or its own.
pub fn lock_order()
    ensures base { (start : World) (past : List Event) (run : ℕ) (p : Place) (temp name : List ℕ) (a : Answer)
        (m : After) → IsStart start → IsLegal start (Act run (Rename p temp name) a m ∷ past)
        → AreCareful (Act run (Rename p temp name) a m ∷ past)
        → HasNoneOfTheirs start (Act run (Rename p temp name) a m ∷ past)
        → AreHonest start (Act run (Rename p temp name) a m ∷ past)
        → AreOrderly (Act run (Rename p temp name) a m ∷ past) → is_committed p name ≡ true → (moment : List Event)
        → IsTriedAt start run moment past
        → IsBase run p name (text_at (world_after start moment) p name) (own run past) }
    ensures committed { (start : World) (past : List Event) (p : Place) (name text : List ℕ) → IsStart start
        → IsLegal start past → AreCareful past → HasNoneOfTheirs start past → is_committed p name ≡ true
        → IsCommitted start p name text past → text_at (world_after start past) p name ≡ text }
    ensures only_commits { (start : World) (past : List Event) (e : Event) (p : Place) (name : List ℕ) → IsStart start
        → IsLegal start (e ∷ past) → AreCareful (e ∷ past) → HasNoneOfTheirs start (e ∷ past)
        → is_committed p name ≡ true → (TriesCommit start p name e past → ⊥) → IsNoCrash e
        → text_at (world_after start (e ∷ past)) p name ≡ text_at (world_after start past) p name }
    ensures stays { (start : World) (past : List Event) (p : Place) (name text : List ℕ) → IsStart start
        → IsLegal start past → AreCareful past → HasNoneOfTheirs start past → is_committed p name ≡ true
        → IsSettled start p name text past → HasTextFirmly (world_after start past) p name text }
    ensures crash { (start : World) (past : List Event) (p : Place) (name : List ℕ) (v : WorldMap) (acted : ℕ → Bool)
        → IsStart start → IsLegal start past → AreCareful past → HasNoneOfTheirs start past → is_committed p name ≡ true
        → IsCrashImage (world_after start past) v acted → HadText start p name (text_at v p name) past }
    ensures failed { (start : World) (past : List Event) (run : ℕ) (p : Place) (temp name text : List ℕ) (m : After)
        → IsStart start → IsLegal start (Act run (Rename p temp name) Failed m ∷ past)
        → AreCareful (Act run (Rename p temp name) Failed m ∷ past)
        → HasNoneOfTheirs start (Act run (Rename p temp name) Failed m ∷ past) → is_committed p name ≡ true
        → WasDone (Create p temp text) (own run past)
        → (text_at (world_after start (Act run (Rename p temp name) Failed m ∷ past)) p name
        ≡ text_at (world_after start past) p name)
        ⊎ (text_at (world_after start (Act run (Rename p temp name) Failed m ∷ past)) p name ≡ text) }
    ensures crashed { (start : World) (past : List Event) (v : World) (run : ℕ) (p : Place) (temp name text : List ℕ)
        → IsStart start → IsLegal start (Act run (Rename p temp name) Failed Before ∷ (Crash v ∷ past))
        → AreCareful (Act run (Rename p temp name) Failed Before ∷ (Crash v ∷ past))
        → HasNoneOfTheirs start (Act run (Rename p temp name) Failed Before ∷ (Crash v ∷ past))
        → is_committed p name ≡ true → WasDone (Create p temp text) (own run past)
        → HadText start p name
        (text_at (world_after start (Act run (Rename p temp name) Failed Before ∷ (Crash v ∷ past))) p name) past
        ⊎ (text_at (world_after start (Act run (Rename p temp name) Failed Before ∷ (Crash v ∷ past))) p name
        ≡ text) }
{}
