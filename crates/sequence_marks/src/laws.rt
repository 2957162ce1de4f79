// What the law on marks asks of a text, each the contract of a function that does nothing.
ghost use Rattle.std.specs.Prelude.{◌≡◌, ℕ, true, false, List, []};
ghost use Rattle.folder_files.specs.Named.{is_committed};
ghost use Rattle.folder_files.specs.Places.{is_folder};
ghost use Rattle.sequence_marks.specs.SequenceMarks.{public_marks, private_marks};

/// A public sequence of a folder stands in the folder's own file, which commits write, and an empty text marks nothing.
pub fn public_sequences_mark()
    ensures folder { (mail folder sequence : List ℕ) → is_folder (public_marks mail folder sequence).folder ≡ true }
    ensures committed { (mail folder sequence : List ℕ)
        → is_committed (public_marks mail folder sequence).place (public_marks mail folder sequence).name ≡ true }
    ensures silent { (mail folder sequence : List ℕ) (n : ℕ) → (public_marks mail folder sequence).says [] n ≡ false }
{}

/// A private sequence of a folder stands in the context of the mail directory, which commits write, and an empty text
/// marks nothing.
pub fn private_sequences_mark()
    ensures folder { (mail folder sequence : List ℕ) → is_folder (private_marks mail folder sequence).folder ≡ true }
    ensures committed { (mail folder sequence : List ℕ)
        → is_committed (private_marks mail folder sequence).place (private_marks mail folder sequence).name ≡ true }
    ensures silent { (mail folder sequence : List ℕ) (n : ℕ) → (private_marks mail folder sequence).says [] n ≡ false }
{}
