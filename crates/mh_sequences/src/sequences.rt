// All sequences of a folder.
ghost use Rattle.std.specs.Prelude.{◌≡◌, ◌≤◌, ◌==◌, ℕ, List, true, [], length, map, slice_get, IfOk, IfSome, OnOk, OnErr, MatchOption, bytes_eq, Bool, if◌then◌else◌, None, Some, IsTrue};
ghost use Rattle.std.specs.List.{All};
ghost use Rattle.mh_base.specs.Numbers.{IsMsgNum};
ghost use Rattle.mh_profile.specs.declared.named_value.NamedValue.{NamedValue as EntryValue};
ghost use Rattle.mh_profile.specs.Validity.{IsEntry};
ghost use Rattle.mh_sequences.specs.Changes.{IsAllChanged, IsCut, IsJoined, IsReady, change_of};
ghost use Rattle.mh_sequences.specs.Joins.{joins};
ghost use Rattle.mh_sequences.specs.Marks.{IsMarked, moved, moved_cur, set_to};
ghost use Rattle.mh_sequences.specs.Placing.{placed};
ghost use Rattle.mh_sequences.specs.Printing.{private_entries, text_of, HasJust};
ghost use Rattle.mh_sequences.specs.Reading.{IsReading, suffix};
ghost use Rattle.mh_sequences.specs.Runs.{AreRuns, has};
ghost use Rattle.mh_sequences.specs.Sequences.{AreSequences, Marked, member, runs_of, public_of, told_entry};

use crate::change::{Change, change_all};
use crate::escape::suffix_of;
use crate::join::Join;
use crate::moving::{in_order, new_number, sources};
use crate::printing::{private_list, put_cur, put_lines};
use crate::reading::{read_cur, read_users};
use crate::user_map::{UserMap, by_names, put};
use crate::{Mark, NumSet, PairList, SeqName, UserSequence};
use mh_base::{Bytes, FolderName, MsgNum};
use mh_profile::{Entries, EntryList};
use std::alloc::{AllocError, Global};
use std::collections::btree_map;
use std::marker::Model;

/// The sequences of a folder and its current message. Contracts see the user's sequences in byte
/// order of their names, and the current message.
#[derive(Drop)]
pub struct Sequences {
    alloc: Global,
    users: UserMap,
    cur: Option<MsgNum>,
}

impl Model for Sequences {
    ghost use Rattle.std.specs.Prelude.{map};
    ghost use Rattle.mh_sequences.specs.Sequences.{AreSequences, Marked, marked_of, told_entry};

    ghost Value = { Marked };

    ghost view = { λ s. marked_of (map told_entry s.users.entries) s.cur };

    ghost invariant = { λ s. AreSequences (map told_entry s.users.entries) };
}

impl Sequences {
    fn read_all(
        alloc: Global,
        public: &[u8],
        context: &Entries,
        folder: &FolderName,
    ) -> Result<Sequences, AllocError>
        ensures reading { IfOk result (λ s. IsReading public.now context.now folder.now s) }
        ensures valid { IfOk result (λ s. AreSequences s.users) }
    {
        let users = read_users(alloc, public, context, folder)?;
        let users = by_names(alloc, users)?;
        let cur = read_cur(alloc, public)?;
        Ok(Sequences { alloc, users, cur })
    }

    /// The sequences of a folder, by its text and by the context's entries: the one reading of both.
    pub fn read(
        alloc: Global,
        public: &[u8],
        context: &Entries,
        folder: &FolderName,
    ) -> Result<Sequences, AllocError>
        ensures reading { IfOk result (λ s. IsReading public.now context.now folder.now s) }
        ensures valid { IfOk result (λ s. AreSequences s.users) }
        ensures alone { IfOk result
            (λ s. (other : Marked) → AreSequences other.users → IsReading public.now context.now folder.now other
            → other ≡ s) }
    {
        Sequences::read_all(alloc, public, context, folder)
    }

    /// The user's sequences, in byte order of their names.
    pub fn users(&self) -> btree_map::Iter<'_, SeqName, UserSequence>
        ensures value { map told_entry result ≡ self.now.users }
        ensures valid { AreSequences self.now.users }
    {
        self.users.iter()
    }

    /// How many user's sequences there are.
    pub fn len(&self) -> u64
        ensures value { result ≡ length self.now.users }
        ensures valid { AreSequences self.now.users }
    {
        self.users.len() as u64
    }

    /// The numbers of the sequence of this name, where there is one.
    pub fn get(&self, name: &SeqName) -> Option<&NumSet>
        ensures { MatchOption result (runs_of self.now.users name.now ≡ [])
            (λ s. s.now.runs ≡ runs_of self.now.users name.now) }
    {
        match self.users.get(name) {
            Some(user) => Some(&user.numbers),
            None => None,
        }
    }

    /// Whether the sequence of this name is public, or would be if there were one.
    pub fn is_public(&self, name: &SeqName) -> bool
        ensures { result ≡ public_of self.now.users name.now }
    {
        match self.users.get(name) {
            Some(user) => user.public,
            None => true,
        }
    }

    /// The current message, which may be absent from the folder.
    pub fn cur(&self) -> Option<MsgNum>
        ensures { result ≡ self.now.cur }
    {
        self.cur
    }

    /// The set of the sequence of this name and another set.
    fn joined(&self, name: &SeqName, numbers: &NumSet, how: Join) -> Result<NumSet, AllocError>
        ensures { IfOk result
            (λ s. (n : ℕ) → has s.runs n ≡ joins how (member self.now.users name.now n) (has numbers.now.runs n)) }
    {
        match self.get(name) {
            Some(old) => old.join(self.alloc, numbers, how),
            None => NumSet::new(self.alloc).join(self.alloc, numbers, how),
        }
    }

    /// Whether the sequence of this name is to be public.
    fn state(&self, name: &SeqName, public: Option<bool>) -> bool
        ensures { result ≡ set_to public (public_of self.now.users name.now) }
    {
        match public {
            Some(public) => public,
            None => self.is_public(name),
        }
    }

    /// Joins a set to the sequence of this name.
    pub(crate) fn join(
        &mut self,
        name: &SeqName,
        numbers: &NumSet,
        how: Join,
        public: Option<bool>,
    ) -> Result<(), AllocError>
        ensures valid { AreSequences self.new.users }
        ensures ok { OnOk result (IsJoined name.now numbers.now.runs how public self.old self.new) }
        ensures err { OnErr result (self.new ≡ self.old) }
    {
        let numbers = self.joined(name, numbers, how)?;
        let public = self.state(name, public);
        let name = name.key(self.alloc)?;
        put(&mut self.users, name, UserSequence { numbers, public })
    }

    fn change(&mut self, change: Change<'_>) -> Result<(), AllocError>
        requires { IsReady change }
        ensures valid { AreSequences self.new.users }
        ensures ok { OnOk result (IsAllChanged (change_of change.entry) self.old.users self.new.users) }
        ensures cur { self.new.cur ≡ self.old.cur }
        ensures err { OnErr result (self.new ≡ self.old) }
    {
        let changed = change_all(self.alloc, &self.users, change)?;
        self.users = by_names(self.alloc, changed)?;
        Ok(())
    }

    /// Drops the numbers that are not listed from all sequences, and leaves the current message.
    pub fn cut(&mut self, listing: &NumSet) -> Result<(), AllocError>
        ensures valid { AreSequences self.new.users }
        ensures ok { OnOk result (IsCut listing.now.runs self.old self.new) }
        ensures err { OnErr result (self.new ≡ self.old) }
    {
        self.change(Change::Keep(listing))
    }

    fn point(&mut self, cur: Option<MsgNum>)
        ensures users { self.new.users ≡ self.old.users }
        ensures valid { AreSequences self.new.users }
        ensures cur { self.new.cur ≡ cur }
    {
        self.cur = cur;
    }

    /// Moves numbers in all sequences.
    fn move_all(&mut self, pairs: &PairList) -> Result<(), AllocError>
        ensures valid { AreSequences self.new.users }
        ensures ok { OnOk result (IsAllChanged (moved pairs.now) self.old.users self.new.users) }
        ensures cur { self.new.cur ≡ self.old.cur }
        ensures err { OnErr result (self.new ≡ self.old) }
    {
        let ordered = in_order(self.alloc, pairs)?;
        let sources = sources(self.alloc, &ordered)?;
        self.change(Change::Move(&ordered, &sources))
    }

    fn move_numbers(&mut self, pairs: &PairList) -> Result<(), AllocError>
        ensures valid { AreSequences self.new.users }
        ensures ok { OnOk result
            (IsAllChanged (moved pairs.now) self.old.users self.new.users
            × (self.new.cur ≡ moved_cur pairs.now self.old.cur)) }
        ensures err { OnErr result (self.new ≡ self.old) }
    {
        self.move_all(pairs)?;
        self.cur = match self.cur {
            Some(cur) => Some(new_number(pairs, cur)),
            None => None,
        };
        Ok(())
    }

    /// Does what a mark says.
    pub fn apply(&mut self, mark: &Mark) -> Result<(), AllocError>
        ensures valid { AreSequences self.new.users }
        ensures ok { OnOk result (IsMarked mark.now self.old self.new) }
        ensures err { OnErr result (self.new ≡ self.old) }
    {
        match mark {
            Mark::Add {
                name,
                numbers,
                public,
            } => self.join(name, numbers, Join::Either, *public),
            Mark::Delete {
                name,
                numbers,
                public,
            } => self.join(name, numbers, Join::FirstAlone, *public),
            Mark::Set {
                name,
                numbers,
                public,
            } => self.join(name, numbers, Join::Second, *public),
            Mark::Withdraw { numbers } => self.change(Change::Withdraw(numbers)),
            Mark::Move { pairs } => self.move_numbers(pairs),
            Mark::Cur(cur) => {
                self.point(*cur);
                Ok(())
            }
        }
    }

    fn text(&self, alloc: Global) -> Result<Bytes, AllocError>
        ensures text { IfOk result (λ text. text ≡ text_of self.now) }
        ensures valid { AreSequences self.now.users }
        ensures range { IfOk result (λ _. IfSome self.now.cur IsMsgNum) }
    {
        let mut text = Bytes::new(alloc);
        put_lines(alloc, &mut text, &self.users, true)?;
        put_cur(alloc, &mut text, self.cur)?;
        put_lines(alloc, &mut text, &self.users, false)?;
        Ok(text)
    }

    /// The public sequences and the current message as the folder's text. With any context that has of the
    /// folder's sequences just the entries of `context_entries` it reads back as these sequences.
    pub fn print(&self, alloc: Global) -> Result<Bytes, AllocError>
        ensures text { IfOk result (λ text. text ≡ text_of self.now) }
        ensures reads_back { IfOk result
            (λ text. (folder : List ℕ) (context : List EntryValue)
            → HasJust (suffix folder) (private_entries (suffix folder) self.now.users) context
            → IsReading text context folder self.now) }
    {
        self.text(alloc)
    }

    /// The private sequences as entries of the context, each of which `Entries::set` takes.
    pub fn context_entries(
        &self,
        alloc: Global,
        folder: &FolderName,
    ) -> Result<EntryList, AllocError>
        ensures entries { IfOk result (λ entries. entries ≡ private_entries (suffix folder.now) self.now.users) }
        ensures valid { IfOk result (λ entries. All IsEntry entries) }
    {
        let ending = suffix_of(alloc, folder)?;
        private_list(alloc, &self.users, ending.as_slice())
    }
}
