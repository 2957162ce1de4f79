// What a run's readings gave.
ghost use Rattle.std.specs.Prelude.{◌≡◌, ◌≢◌, ◌↔◌, IsTrue, MatchOption, MatchBool, List, ℕ};
ghost use Rattle.folder_files.specs.Careful.{IsRead, IsPiece, IsNoPiece, IsNoFirst};
ghost use Rattle.folder_files.specs.Deeds.{did};
ghost use Rattle.step_discipline.specs.Seen.{seen};
ghost use Rattle.folder_files.specs.declared.step.Step.TheVariants as step;
ghost use Rattle.folder_files.specs.declared.step.Answer.TheVariants as answer;

use crate::deed::DeedRef;
use folder_files::{Answer, FilePath, Place, Step};
use mh_base::{Bytes, Name};

/// A piece of an outside file: its place, its bytes and the file's length.
#[derive(Drop, Clone, Copy)]
pub struct PieceRef<'a> {
    pub from: u64,
    pub bytes: &'a Bytes,
    pub length: u64,
}

impl<'a> DeedRef<'a> {
    fn content(&self) -> Option<&'a Bytes>
        ensures { MatchOption result ((bytes : List ℕ) → (seen self.now).answer ≢ answer.Content bytes)
            (λ bytes. (seen self.now).answer ≡ answer.Content bytes.now) }
    {
        match self.answer {
            Answer::Content(bytes) => Some(bytes),
            _ => None,
        }
    }

    fn is_gone(&self) -> bool
        ensures { IsTrue result ↔ ((seen self.now).answer ≡ answer.Gone) }
    {
        matches!(self.answer, Answer::Gone)
    }

    /// The bytes that the file of this name had.
    pub fn reads(&self, place: &Place, name: &Name) -> Option<&'a Bytes>
        ensures { MatchOption result ((bytes : List ℕ) → IsRead place.now name.now bytes (seen self.now) → ⊥)
            (λ bytes. IsRead place.now name.now bytes.now (seen self.now)) }
    {
        match self.step {
            Step::Read(at, file, _) if at.same(place) && file.same(name) => self.content(),
            _ => None,
        }
    }

    pub fn misses(&self, place: &Place, name: &Name) -> bool
        ensures { IsTrue result ↔
            ((limit : ℕ) × (seen self.now ≡ did (step.Read place.now name.now limit) answer.Gone)) }
    {
        match self.step {
            Step::Read(at, file, _) => at.same(place) && file.same(name) && self.is_gone(),
            _ => false,
        }
    }

    /// Whether a piece of this file was asked for.
    pub fn asks_piece(&self, path: &FilePath) -> bool
        ensures { MatchBool result ((from : ℕ) × (most : ℕ) × ((seen self.now).step ≡ step.ReadDrop path.now from most))
            (IsNoPiece path.now (seen self.now)) }
    {
        match self.step {
            Step::ReadDrop { path: at, .. } => at.same(path),
            _ => false,
        }
    }

    /// Whether a piece of this file from its front on was asked for.
    pub fn asks_first(&self, path: &FilePath) -> bool
        ensures { MatchBool result ((most : ℕ) × ((seen self.now).step ≡ step.ReadDrop path.now 0 most))
            (IsNoFirst path.now (seen self.now)) }
    {
        match self.step {
            Step::ReadDrop { path: at, from, .. } => *from == 0 && at.same(path),
            _ => false,
        }
    }

    pub fn piece(&self, path: &FilePath) -> Option<PieceRef<'a>>
        ensures { MatchOption result
            ((from length_ : ℕ) (bytes : List ℕ) → IsPiece path.now from bytes length_ (seen self.now) → ⊥)
            (λ p. IsPiece path.now p.from p.bytes.now p.length (seen self.now)) }
    {
        match (self.step, self.answer) {
            (Step::ReadDrop { path: at, from, .. }, Answer::Piece { bytes, length })
                if at.same(path) => {
                Some(PieceRef {
                    from: *from,
                    bytes,
                    length: *length,
                })
            }
            _ => None,
        }
    }
}

pub fn is_read(deed: &DeedRef, place: &Place, name: &Name) -> bool
    ensures { IsTrue result ↔ ((bytes : List ℕ) × IsRead place.now name.now bytes (seen deed.now)) }
{
    match deed.reads(place, name) {
        Some(_) => true,
        None => false,
    }
}
