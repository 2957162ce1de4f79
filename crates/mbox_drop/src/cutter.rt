// Cuts a drop that comes in pieces.
ghost use Rattle.std.specs.Prelude.{◌≡◌, ◌≤◌, ◌+◌, ◌<◌, ℕ, List, [], length, Err, vec_len};
ghost use Rattle.mbox_drop.specs.Drops.{open_bytes};

use crate::fault::CutFault;
use crate::find::{Found, find, skip};
use crate::hand::{complete, last_message};
use crate::long::overlong;
use crate::parts::{Parts, cut_parts};
use crate::place::{DropState, Match, Stage};
use mh_base::{Bytes, BytesList};
use std::alloc::Global;
use std::mem;

/// Gives the messages of a drop that comes in pieces, each as soon as its end is known.
#[derive(Drop)]
pub struct DropCutter {
    place: DropState,
    /// The bytes after the last separator line.
    hand: Vec<u8>,
    body: usize,
    stop: Option<CutFault>,
    alloc: Global,
    ghost within: { body ≤ vec_len hand },
}

impl DropCutter {
    ghost use Rattle.mbox_drop.specs.Cutting.{HasTaken, IsStopped, Feeds, Ends};
    ghost use Rattle.mbox_drop.specs.Giving.{Holds, Passes, GivesParts};

    pub fn new(alloc: Global) -> DropCutter
        ensures { HasTaken result [] }
    {
        DropCutter {
            place: DropState::First(Match::Nothing),
            hand: Vec::new(alloc),
            body: 0,
            stop: None,
            alloc,
        }
    }

    /// The number of the bytes that are kept.
    pub fn held(&self) -> u64
        ensures taken { (d : List ℕ) → HasTaken self.now d → result ≡ length (open_bytes d) }
        ensures stopped { (fault : CutFault) → IsStopped self.now fault → result ≡ 0 }
    {
        self.hand.len() as u64
    }

    fn stop_with(&mut self, fault: CutFault) -> Result<BytesList, CutFault>
        ensures answer { result ≡ Err fault }
        ensures stopped { IsStopped self.new fault }
    {
        self.body = 0;
        self.hand = Vec::new(self.alloc);
        self.stop = Some(fault);
        Err(fault)
    }

    /// Keeps a piece that finishes no message.
    fn hold(&mut self, place: DropState, body: usize, rest: &[u8]) -> Result<BytesList, CutFault>
        requires { body ≤ vec_len self.old.hand + length rest.now }
        ensures { Holds self.old place body rest.now self.new result }
    {
        if place.is_lost() {
            return self.stop_with(CutFault::NotADrop);
        }
        if let Some(excess) = overlong(self.hand.len() + rest.len()) {
            return self.stop_with(CutFault::TooLong(excess));
        }
        match self.hand.extend_from_slice(rest) {
            Ok(()) => {
                self.place = place;
                self.body = body;
                Ok(BytesList::new(self.alloc))
            }
            Err(_) => Err(CutFault::Memory),
        }
    }

    /// Gives the messages of the parts, after the first.
    fn pass(&mut self, body: usize, rest: &[u8], parts: Parts) -> Result<BytesList, CutFault>
        requires first { body ≤ vec_len self.old.hand + length rest.now }
        requires placed { 0 < vec_len parts.messages }
        requires last { parts.body ≤ length parts.text.now }
        ensures { Passes self.old body rest.now parts.entry self.new result }
    {
        let Parts {
            messages,
            long: _,
            text,
            place,
            body: last,
        } = parts;
        let Ok(tail) = text.to_vec(self.alloc) else {
            return Err(CutFault::Memory);
        };
        if complete(&mut self.hand, body, rest).is_err() {
            return Err(CutFault::Memory);
        }
        let first = mem::replace(&mut self.hand, tail);
        self.place = place;
        self.body = last;
        let mut given = messages;
        given[0] = Bytes::from_vec(first);
        Ok(BytesList::from_vec(given))
    }

    /// Gives the messages that a piece finishes.
    fn give(&mut self, body: usize, rest: &[u8], next: usize) -> Result<BytesList, CutFault>
        requires first { body ≤ vec_len self.old.hand + length rest.now }
        requires inside { next ≤ length rest.now }
        ensures { GivesParts self.old body rest.now next self.new result }
    {
        let Ok(parts) = cut_parts(self.alloc, body, &rest[next..]) else {
            return Err(CutFault::Memory);
        };
        match parts.long.or(overlong(parts.text.len())) {
            Some(excess) => self.stop_with(CutFault::TooLong(excess)),
            None => self.pass(body, rest, parts),
        }
    }

    /// Takes the next piece, and gives the messages that it finishes. A message is finished by the space of the next
    /// separator's `From `. For want of memory nothing is taken.
    pub fn feed(&mut self, piece: &[u8]) -> Result<BytesList, CutFault>
        ensures taken { (d : List ℕ) → HasTaken self.old d → Feeds d piece.now self.new result }
        ensures stopped { (fault : CutFault) → IsStopped self.old fault
            → (result ≡ Err fault) × IsStopped self.new fault }
    {
        if let Some(fault) = self.stop {
            return Err(fault);
        }
        let start = skip(self.place, piece);
        let rest = &piece[start.next..];
        match find(start.place, self.hand.len(), self.body, rest) {
            Found::Cut { body, next } => self.give(body, rest, next),
            Found::End { place, body } => self.hold(place, body, rest),
        }
    }

    /// The last message. There is none where no byte was fed.
    pub fn end(self) -> Result<Option<Bytes>, CutFault>
        ensures taken { (d : List ℕ) → HasTaken self d → Ends d result }
        ensures stopped { (fault : CutFault) → IsStopped self fault → result ≡ Err fault }
    {
        let DropCutter {
            place,
            hand,
            body,
            stop,
            alloc: _,
        } = self;
        if let Some(fault) = stop {
            return Err(fault);
        }
        match place.stage() {
            Stage::Unread => Ok(None),
            Stage::NoDrop => Err(CutFault::NotADrop),
            Stage::Begun => {
                let length = place.ended(body, hand.len());
                last_message(hand, length)
            }
        }
    }
}
