// Why the moves of a pack number messages anew: the law is the contract of a function that does nothing.
ghost use Rattle.std.specs.Prelude.{◌≡◌, ℕ, List, is_some};
ghost use Rattle.file_plans.specs.Mailboxes.{Folder};
ghost use Rattle.message_places.specs.Order.{StandInOrder};
ghost use Rattle.message_places.specs.Places.{is_in, slots};
ghost use Rattle.mh_sequences.specs.Runs.{AreRuns, has, numbers_of};
ghost use Rattle.mh_sequences.specs.declared.run.Run.{Run};
ghost use Rattle.pack_plans.specs.PackOutcome.{moved_at};
ghost use Rattle.pack_plans.specs.Places.{listing_moves, packed_listing, places_of};

/// Where a folder has messages at just the listed numbers, the moves bring the k-th of them to the number k, and no
/// other number has a message then; and where each ended at its place, the numbers that are told are those from 1 on.
pub fn numbered_from_one()
    ensures order { (run : ℕ) (listing : List Run) (f : Folder) → AreRuns listing
        → StandInOrder f.messages (moved_at run (listing_moves listing) f).messages (numbers_of listing)
        (places_of (numbers_of listing)) }
    ensures alone { (run : ℕ) (listing : List Run) (f : Folder) → AreRuns listing
        → ((n : ℕ) → is_some (f.messages n) ≡ has listing n) → (k : ℕ)
        → is_some ((moved_at run (listing_moves listing) f).messages k) ≡ is_in k (places_of (numbers_of listing)) }
    ensures told { (listing : List Run) → AreRuns listing
        → numbers_of (packed_listing listing (slots (listing_moves listing))) ≡ places_of (numbers_of listing) }
{}
