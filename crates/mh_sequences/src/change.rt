// Changes of every sequence.
ghost use Rattle.std.specs.Prelude.{◌≡◌, ◌++◌, ℕ, List, map, IfOk, OnOk};
ghost use Rattle.mh_sequences.specs.Changes.{change_of, IsChanged, IsEach, IsReady};
ghost use Rattle.mh_sequences.specs.declared.run.Run.{Run as RunValue};
ghost use Rattle.mh_sequences.specs.Placing.{alone};
ghost use Rattle.mh_sequences.specs.Runs.{has};
ghost use Rattle.mh_sequences.specs.Sequences.{told, told_entry};

use crate::join::Join;
use crate::moving::moved;
use crate::user::User;
use crate::user_map::UserMap;
use crate::{NumSet, Pair, SeqName, UserSequence};
use std::alloc::{AllocError, Global};

/// What happens to every sequence.
#[derive(Clone, Copy)]
pub(crate) enum Change<'a> {
    Keep(&'a NumSet),
    Withdraw(&'a NumSet),
    /// Pairs in order of the numbers that they move, and all these numbers.
    Move(&'a [Pair], &'a NumSet),
}

fn changed(alloc: Global, numbers: &NumSet, change: Change<'_>) -> Result<NumSet, AllocError>
    requires { IsReady change }
    ensures { IfOk result (λ s. (n : ℕ) → has s.runs n ≡ change_of change.entry (has numbers.now.runs) n) }
{
    match change {
        Change::Keep(listing) => numbers.join(alloc, listing, Join::Both),
        Change::Withdraw(others) => numbers.join(alloc, others, Join::FirstAlone),
        Change::Move(pairs, sources) => moved(alloc, numbers, pairs, sources),
    }
}

/// Puts the changed sequence last, where anything is left of it.
fn keep(
    alloc: Global,
    kept: &mut Vec<User>,
    name: &SeqName,
    user: &UserSequence,
    change: Change<'_>,
) -> Result<(), AllocError>
    requires { IsReady change }
    ensures { OnOk result
        ((runs : List RunValue) × IsChanged (change_of change.entry) user.now.numbers.runs runs
        × (map told kept.new.items ≡ map told kept.old.items ++ alone name.now user.now.public runs)) }
{
    let numbers = changed(alloc, &user.numbers, change)?;
    if numbers.is_empty() {
        return Ok(());
    }
    let name = name.copy(alloc)?;
    kept.push(User {
        name,
        numbers,
        public: user.public,
    })?;
    Ok(())
}

/// The sequences changed, in the same order.
pub(crate) fn change_all(
    alloc: Global,
    users: &UserMap,
    change: Change<'_>,
) -> Result<Vec<User>, AllocError>
    requires { IsReady change }
    ensures { IfOk result (λ v. IsEach (change_of change.entry) (map told_entry users.now.entries) (map told v.items)) }
{
    let mut kept = Vec::new(alloc);
    for (name, user) in users {
        keep(alloc, &mut kept, name, user, change)?;
    }
    Ok(kept)
}
