// Why these functions of texts and marks are the relations that they stand for: each law is the contract of a function
// that does nothing.
ghost use Rattle.std.specs.Prelude.{◌≡◌, ◌↔◌, ℕ, List, IsTrue, IfSome};
ghost use Rattle.mh_base.specs.Numbers.{IsMsgNum};
ghost use Rattle.mh_profile.specs.declared.named_value.NamedValue.{NamedValue};
ghost use Rattle.mh_sequences.specs.Changes.{IsCut};
ghost use Rattle.mh_sequences.specs.Marks.{IsMarked};
ghost use Rattle.mh_sequences.specs.Reading.{IsReading};
ghost use Rattle.mh_sequences.specs.Sequences.{AreSequences, Marked, member, public_of};
ghost use Rattle.mh_sequences.specs.declared.mark.Mark.{Mark};
ghost use Rattle.mh_sequences.specs.declared.run.Run.{Run};
ghost use Rattle.sequence_commits.specs.Cutting.{cut_to};
ghost use Rattle.sequence_commits.specs.Marking.{IsValidMark, marked_by};
ghost use Rattle.sequence_commits.specs.Reading.{sequences_in};
ghost use Rattle.sequence_commits.specs.Telling.{same_told};

/// Sequences with the same members, public alike, and with the same current message are the same.
pub fn told_by_numbers()
    ensures { (a b : Marked) → AreSequences a.users → AreSequences b.users
        → ((name : List ℕ) (n : ℕ) → member a.users name n ≡ member b.users name n)
        → ((name : List ℕ) (n : ℕ) → IsTrue (member a.users name n) → public_of a.users name ≡ public_of b.users name)
        → a.cur ≡ b.cur → a ≡ b }
{}

/// What a text and a context say of a folder's sequences is their one reading.
pub fn reading_is_one()
    ensures valid { (text : List ℕ) (context : List NamedValue) (folder : List ℕ)
        → AreSequences (sequences_in text context folder).users }
    ensures reading { (text : List ℕ) (context : List NamedValue) (folder : List ℕ)
        → IsReading text context folder (sequences_in text context folder) }
    ensures alone { (text : List ℕ) (context : List NamedValue) (folder : List ℕ) (other : Marked)
        → AreSequences other.users → IsReading text context folder other → other ≡ sequences_in text context folder }
{}

/// What a mark makes of sequences is its one result.
pub fn mark_is_one()
    ensures valid { (mark : Mark) (old : Marked) → AreSequences (marked_by mark old).users }
    ensures marked { (mark : Mark) (old : Marked) → AreSequences old.users → IsValidMark mark
        → IsMarked mark old (marked_by mark old) }
    ensures alone { (mark : Mark) (old other : Marked) → AreSequences other.users → IsMarked mark old other
        → other ≡ marked_by mark old }
{}

/// What is left of sequences under a set of listed numbers is the one cut.
pub fn cut_is_one()
    ensures valid { (listing : List Run) (old : Marked) → AreSequences (cut_to listing old).users }
    ensures cut { (listing : List Run) (old : Marked) → AreSequences old.users
        → IsCut listing old (cut_to listing old) }
    ensures alone { (listing : List Run) (old other : Marked) → AreSequences other.users → IsCut listing old other
        → other ≡ cut_to listing old }
{}

/// A folder's text and its private entries are alike just where the sequences are the same: a commit makes no step just
/// where nothing changes.
pub fn told_alike()
    ensures { (folder : List ℕ) (old new : Marked) → AreSequences old.users → AreSequences new.users
        → IfSome old.cur IsMsgNum → IfSome new.cur IsMsgNum → IsTrue (same_told folder old new) ↔ (old ≡ new) }
{}
