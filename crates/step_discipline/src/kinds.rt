// The kinds of changing steps that a run may make.
ghost use Rattle.std.specs.Prelude.{◌≡◌, ◌↔◌, ◌⊎◌, IsTrue, IfOk, true};
ghost use Rattle.mh_base.specs.Entries.{kind_of};
ghost use Rattle.folder_files.specs.Careful.{IsReady, MayCreate, MayPut, MayGive, MayTake, MayBackUp, MayRemove, MayDrop, MayUnhold, MayCommit, MayStore, MaySetAside};
ghost use Rattle.folder_files.specs.Named as named;
ghost use Rattle.step_discipline.specs.Seen.{seen_all};

use crate::committing::has_base;
use crate::deed::DeedRef;
use crate::discarding::may_discard;
use crate::holding::{was_given_away, was_renamed};
use crate::named::{
    is_backing_up, is_committed, is_folder_place, is_held, is_held_of, is_number, is_original,
    is_other, is_taking, is_temp, is_temp_of, is_work,
};
use crate::ready::{was_made, was_synced};
use folder_files::Place;
use mh_base::Name;

fn is_ready(own: &[DeedRef], run: u128, place: &Place, temp: &Name) -> bool
    ensures { IsTrue result ↔ IsReady run place.now temp.now (seen_all own.now) }
{
    is_temp_of(run, temp) && was_synced(own, place, temp)
}

pub fn may_create(own: &[DeedRef], run: u128, place: &Place, temp: &Name) -> bool
    ensures { IsTrue result ↔ MayCreate run place.now temp.now (seen_all own.now) }
{
    is_temp_of(run, temp) && !was_made(own, place, temp)
}

fn may_put(own: &[DeedRef], run: u128, place: &Place, temp: &Name, number: &Name) -> bool
    ensures { IsTrue result ↔ MayPut run place.now temp.now number.now (seen_all own.now) }
{
    is_folder_place(place) && is_number(number) && is_ready(own, run, place, temp)
}

fn may_give(place: &Place, held: &Name, number: &Name) -> bool
    ensures { IsTrue result ↔ MayGive place.now held.now number.now }
{
    is_folder_place(place) && is_held(held) && is_number(number)
}

fn may_store(own: &[DeedRef], run: u128, place: &Place, temp: &Name, name: &Name) -> bool
    ensures { IsTrue result ↔ MayStore run place.now temp.now name.now (seen_all own.now) }
{
    is_work(place) && is_other(name) && is_ready(own, run, place, temp)
}

pub fn may_link(own: &[DeedRef], run: u128, place: &Place, from: &Name, to: &Name) -> bool
    ensures { IsTrue result ↔
        (MayPut run place.now from.now to.now (seen_all own.now)
        ⊎ (MayGive place.now from.now to.now ⊎ MayStore run place.now from.now to.now (seen_all own.now))) }
{
    may_put(own, run, place, from, to)
        || may_give(place, from, to)
        || may_store(own, run, place, from, to)
}

fn may_take(own: &[DeedRef], run: u128, place: &Place, number: &Name, held: &Name) -> bool
    ensures { IsTrue result ↔ MayTake run place.now number.now held.now (seen_all own.now) }
{
    is_folder_place(place) && is_taking(run, number, held) && !was_renamed(own, place, number, held)
}

fn may_back_up(place: &Place, number: &Name, backup: &Name) -> bool
    ensures { IsTrue result ↔ MayBackUp place.now number.now backup.now }
{
    is_folder_place(place) && is_backing_up(number, backup)
}

fn may_commit(own: &[DeedRef], run: u128, place: &Place, temp: &Name, name: &Name) -> bool
    ensures { IsTrue result ↔ MayCommit run place.now temp.now name.now (seen_all own.now) }
{
    is_committed(place, name) && is_ready(own, run, place, temp) && has_base(own, run, place, name)
}

fn may_set_aside(place: &Place, name: &Name, old: &Name) -> bool
    ensures { IsTrue result ↔ MaySetAside place.now name.now old.now }
{
    is_work(place) && is_other(name) && is_original(name, old)
}

fn may_move(own: &[DeedRef], run: u128, place: &Place, from: &Name, to: &Name) -> bool
    ensures { IsTrue result ↔
        (MayTake run place.now from.now to.now (seen_all own.now) ⊎ MayBackUp place.now from.now to.now) }
{
    may_take(own, run, place, from, to) || may_back_up(place, from, to)
}

fn may_replace(own: &[DeedRef], run: u128, place: &Place, from: &Name, to: &Name) -> bool
    ensures { IsTrue result ↔
        (MayCommit run place.now from.now to.now (seen_all own.now)
        ⊎ (MayStore run place.now from.now to.now (seen_all own.now) ⊎ MaySetAside place.now from.now to.now)) }
{
    may_commit(own, run, place, from, to)
        || may_store(own, run, place, from, to)
        || may_set_aside(place, from, to)
}

pub fn may_rename(own: &[DeedRef], run: u128, place: &Place, from: &Name, to: &Name) -> bool
    ensures { IsTrue result ↔
        ((MayTake run place.now from.now to.now (seen_all own.now) ⊎ MayBackUp place.now from.now to.now)
        ⊎ (MayCommit run place.now from.now to.now (seen_all own.now)
        ⊎ (MayStore run place.now from.now to.now (seen_all own.now)
        ⊎ MaySetAside place.now from.now to.now))) }
{
    may_move(own, run, place, from, to) || may_replace(own, run, place, from, to)
}

fn may_remove(place: &Place, number: &Name) -> bool
    ensures { IsTrue result ↔ MayRemove place.now number.now }
{
    is_folder_place(place) && is_number(number)
}

fn may_drop(own: &[DeedRef], place: &Place, held: &Name) -> bool
    ensures { IsTrue result ↔ MayDrop place.now held.now (seen_all own.now) }
{
    is_folder_place(place) && is_held(held) && was_given_away(own, place, held)
}

fn may_unhold(own: &[DeedRef], run: u128, place: &Place, held: &Name) -> bool
    ensures { IsTrue result ↔ MayUnhold run place.now held.now (seen_all own.now) }
{
    is_folder_place(place) && is_held_of(run, held) && may_discard(own, run, place, held)
}

fn may_let_go(own: &[DeedRef], run: u128, place: &Place, held: &Name) -> bool
    ensures { IsTrue result ↔
        (MayDrop place.now held.now (seen_all own.now) ⊎ MayUnhold run place.now held.now (seen_all own.now)) }
{
    may_drop(own, place, held) || may_unhold(own, run, place, held)
}

pub fn may_unlink(own: &[DeedRef], run: u128, place: &Place, name: &Name) -> bool
    ensures { IsTrue result ↔
        ((named.is_temp (kind_of name.now) ≡ true)
        ⊎ (MayRemove place.now name.now
        ⊎ (MayDrop place.now name.now (seen_all own.now)
        ⊎ MayUnhold run place.now name.now (seen_all own.now)))) }
{
    is_temp(name) || may_remove(place, name) || may_let_go(own, run, place, name)
}
