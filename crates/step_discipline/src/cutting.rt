// Drops that a run has read and stored.
ghost use Rattle.std.specs.Prelude.{◌≡◌, ◌≢◌, ◌↔◌, ◌++◌, ◌≤◌, IsTrue, IfOk, MatchOption, List, ℕ, [], length as count, take, drop, map, reverse, true};
ghost use Rattle.mbox_drop.specs.Drops.{is_drop, messages as messages_of};
ghost use Rattle.folder_files.specs.Careful.{IsPiece, IsFirstPut, WasPutFrom, WasReady, HasStored, MayCut};
ghost use Rattle.folder_files.specs.Deeds.{Once, WasDone};
ghost use Rattle.folder_files.specs.Giving.{GivesPieces};
ghost use Rattle.step_discipline.specs.Seen.{seen, seen_all};
ghost use Rattle.folder_files.specs.declared.place.Place.{Place};
ghost use Rattle.folder_files.specs.declared.step.Step.TheVariants as step;

use crate::copies::{PutRef, put_of, was_put_from};
use crate::deed::DeedRef;
use crate::reading::PieceRef;
use crate::ready::{was_folder_synced, was_ready};
use folder_files::FilePath;
use mbox_drop::MailDrop;
use mh_base::{Bytes, Duplicate};
use std::alloc::{AllocError, Global};

/// The piece after what stands before it, where there is no gap.
fn joined(mut before: Bytes, piece: &PieceRef) -> Result<Option<Bytes>, AllocError>
    ensures { IfOk result
        (λ r.
        MatchOption r (count before ≢ piece.now.from)
        (λ bytes. (count before ≡ piece.now.from) × (bytes ≡ before ++ piece.now.bytes.now))) }
{
    if before.len() as u64 != piece.from {
        return Ok(None);
    }
    before.extend(piece.bytes.as_slice())?;
    Ok(Some(before))
}

/// The bytes that the pieces give since the last from the file's front.
fn pieces(alloc: Global, own: &[DeedRef], path: &FilePath) -> Result<Option<Bytes>, AllocError>
    ensures { IfOk result (λ r. GivesPieces path.now (seen_all own.now) r) }
{
    let Some((deed, older)) = own.split_first() else {
        return Ok(None);
    };
    if !deed.asks_piece(path) {
        return pieces(alloc, older, path);
    }
    let Some(piece) = deed.piece(path) else {
        return Ok(None);
    };
    if piece.from == 0 {
        return Ok(Some(piece.bytes.duplicate(alloc)?));
    }
    match pieces(alloc, older, path)? {
        Some(before) => joined(before, &piece),
        None => Ok(None),
    }
}

fn is_told(deed: &DeedRef, path: &FilePath, length: u64) -> bool
    ensures { IsTrue result ↔ ((piece : List ℕ) × IsPiece path.now 0 piece length (seen deed.now)) }
{
    match deed.piece(path) {
        Some(piece) => piece.from == 0 && piece.length == length,
        None => false,
    }
}

fn was_told(own: &[DeedRef], path: &FilePath, length: u64) -> bool
    ensures { IsTrue result ↔ Once (λ d older. (piece : List ℕ) × IsPiece path.now 0 piece length d)
        (seen_all own.now) }
{
    match own.split_first() {
        None => false,
        Some((deed, older)) => is_told(deed, path, length) || was_told(older, path, length),
    }
}

/// Whether the file that was put had these bytes and was not put before.
fn is_first_put(older: &[DeedRef], run: u128, put: &PutRef, message: &[u8]) -> bool
    ensures { IsTrue result ↔
        (WasReady put.now.place.now put.now.temp.now message.now (seen_all older.now)
        × (WasPutFrom run put.now.place.now put.now.temp.now (seen_all older.now) → ⊥)) }
{
    was_ready(older, put.place, put.temp, message) && !was_put_from(older, run, put)
}

fn is_stored(
    newer: &[DeedRef],
    deed: &DeedRef,
    older: &[DeedRef],
    run: u128,
    message: &[u8],
) -> bool
    ensures { IsTrue result ↔
        ((q : Place) × IsFirstPut run q message.now (seen deed.now) (seen_all older.now)
        × WasDone (step.SyncFolder q) (seen_all newer.now)) }
{
    match put_of(deed, run) {
        Some(put) => {
            is_first_put(older, run, &put, message) && was_folder_synced(newer, put.place)
        }
        None => false,
    }
}

fn are_stored(own: &[DeedRef], at: usize, run: u128, path: &FilePath, messages: &[&[u8]]) -> bool
    requires { at ≤ count own.now }
    ensures { IsTrue result ↔ HasStored run path.now (seen_all (take at own.now))
        (reverse (map (λ m. m.now) messages.now)) (seen_all (drop at own.now)) }
{
    let (newer, rest) = own.split_at(at);
    let Some((last, before)) = messages.split_last() else {
        return true;
    };
    let Some((deed, older)) = rest.split_first() else {
        return false;
    };
    if is_stored(newer, deed, older, run, last) {
        are_stored(own, at + 1, run, path, before)
    } else if deed.asks_first(path) {
        false
    } else {
        are_stored(own, at + 1, run, path, messages)
    }
}

/// Whether the bytes are a drop of which each message was stored.
fn is_drop_stored(
    alloc: Global,
    own: &[DeedRef],
    run: u128,
    path: &FilePath,
    bytes: &[u8],
) -> Result<bool, AllocError>
    ensures { IfOk result
        (λ b.
        IsTrue b ↔
        ((is_drop bytes.now ≡ true)
        × HasStored run path.now [] (reverse (messages_of bytes.now)) (seen_all own.now))) }
{
    match MailDrop::cut(bytes) {
        Ok(mail) => {
            let messages: Vec<&[u8]> = mail.messages().collect(alloc)?;
            Ok(are_stored(own, 0, run, path, &messages))
        }
        Err(_) => Ok(false),
    }
}

/// Whether the bytes are as many as the run was told that the file has.
fn is_whole(own: &[DeedRef], path: &FilePath, bytes: &Bytes, length: u64) -> bool
    ensures { IsTrue result ↔
        ((count bytes.now ≡ length)
        × Once (λ d older. (piece : List ℕ) × IsPiece path.now 0 piece length d) (seen_all own.now)) }
{
    bytes.len() as u64 == length && was_told(own, path, length)
}

/// Whether the drop may be cut at this length, since all of it was read and stored.
pub fn may_cut(
    alloc: Global,
    own: &[DeedRef],
    run: u128,
    path: &FilePath,
    length: u64,
) -> Result<bool, AllocError>
    ensures { IfOk result (λ b. IsTrue b ↔ MayCut run path.now length (seen_all own.now)) }
{
    match pieces(alloc, own, path)? {
        None => Ok(false),
        Some(bytes) => {
            if is_whole(own, path, &bytes, length) {
                is_drop_stored(alloc, own, run, path, bytes.as_slice())
            } else {
                Ok(false)
            }
        }
    }
}
