// The user's sequences by their names.
ghost use Rattle.std.specs.Prelude.{◌≡◌, ◌++◌, ◌∷◌, [], map, IfOk, OnOk, OnErr, IsTrue};
ghost use Rattle.mh_sequences.specs.Names.{is_seq_name};
ghost use Rattle.mh_sequences.specs.Placing.{placed};
ghost use Rattle.mh_sequences.specs.Sequences.{AreSequences, told, told_entry};

use crate::user::User;
use crate::{SeqName, UserSequence};
use std::alloc::{AllocError, Global};
use std::collections::BTreeMap;

pub(crate) type UserMap = BTreeMap<SeqName, UserSequence>;

/// Puts a sequence under its name, or away where its set is empty.
pub(crate) fn put(users: &mut UserMap, name: SeqName, user: UserSequence) -> Result<(), AllocError>
    requires users { AreSequences (map told_entry users.old.entries) }
    requires name { IsTrue (is_seq_name name) }
    ensures ok { OnOk result
        (map told_entry users.new.entries
        ≡ placed name user.public user.numbers.runs (map told_entry users.old.entries)) }
    ensures valid { AreSequences (map told_entry users.new.entries) }
    ensures err { OnErr result (map told_entry users.new.entries ≡ map told_entry users.old.entries) }
{
    if user.numbers.is_empty() {
        let _ = users.remove(&name);
        return Ok(());
    }
    users.insert(name, user)?;
    Ok(())
}

/// Puts a sequence behind all others.
fn put_last(users: &mut UserMap, user: User) -> Result<(), AllocError>
    requires { AreSequences (map told_entry users.old.entries ++ told user ∷ []) }
    ensures { OnOk result (map told_entry users.new.entries ≡ map told_entry users.old.entries ++ told user ∷ []) }
{
    let User {
        name,
        numbers,
        public,
    } = user;
    put(users, name, UserSequence { numbers, public })
}

/// Sequences in byte order of their names, under these.
pub(crate) fn by_names(alloc: Global, users: Vec<User>) -> Result<UserMap, AllocError>
    requires { AreSequences (map told users.items) }
    ensures { IfOk result (λ m. map told_entry m.entries ≡ map told users.items) }
{
    let mut map = BTreeMap::new(alloc);
    for user in users {
        put_last(&mut map, user)?;
    }
    Ok(map)
}
