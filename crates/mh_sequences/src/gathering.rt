// Sequences made of what was mentioned of them.
ghost use Rattle.std.specs.Prelude.{◌≡◌, ◌≤◌, ℕ, [], ◌∷◌, map, IsTrue, IfOk, OnOk};
ghost use Rattle.std.specs.List.{All};
ghost use Rattle.std.specs.List.Sorted.{IsPermutation};
ghost use Rattle.mh_sequences.specs.FieldNames.{is_name_in};
ghost use Rattle.mh_sequences.specs.Mentions.{IsGathered, IsMention, IsRunAdded};
ghost use Rattle.mh_sequences.specs.Names.{is_seq_name};
ghost use Rattle.mh_sequences.specs.Runs.{AreRuns, has};
ghost use Rattle.mh_sequences.specs.Sequences.{AreSequences, told};

use crate::field_names::FieldNames;
use crate::mention::Mention;
use crate::place::{Position, place_of};
use crate::user::User;
use crate::{NumSet, Run, SeqName};
use mh_base::List;
use std::alloc::{AllocError, Global};

/// A user's sequence of one run.
fn new_user(alloc: Global, name: &[u8], run: Run, public: bool) -> Result<User, AllocError>
    requires name { IsTrue (is_seq_name name.now) }
    requires run { run.from ≤ run.to }
    ensures name { IfOk result (λ u. u.name ≡ name.now) }
    ensures numbers { IfOk result (λ u. (n : ℕ) → has u.numbers.runs n ≡ has (run ∷ []) n) }
    ensures valid { IfOk result (λ u. AreRuns u.numbers.runs) }
    ensures public { IfOk result (λ u. u.public ≡ public) }
{
    let Some(name) = SeqName::in_bytes(alloc, name)? else {
        unreachable!()
    };
    let mut numbers = NumSet::new(alloc);
    numbers.insert_run(run)?;
    Ok(User {
        name,
        numbers,
        public,
    })
}

/// Adds a run to the sequence of a name, which is made where there is none.
fn add_run(
    alloc: Global,
    users: &mut Vec<User>,
    name: &[u8],
    run: Run,
    public: bool,
) -> Result<(), AllocError>
    requires users { AreSequences (map told users.old.items) }
    requires name { IsTrue (is_seq_name name.now) }
    requires run { run.from ≤ run.to }
    ensures added { OnOk result (IsRunAdded name.now run public (map told users.old.items) (map told users.new.items)) }
{
    match place_of(users, name) {
        Position::At(at) => {
            let user = &mut users[at];
            user.numbers.insert_run(run)?;
            user.public = public;
        }
        Position::Before(at) => {
            let user = new_user(alloc, name, run, public)?;
            users.insert(at, user)?;
        }
    }
    Ok(())
}

/// Puts mentions in order by name and number, in which each run goes behind those that stand already.
fn in_order<'a>(mentions: List<Mention<'a>>) -> Vec<Mention<'a>>
    ensures { IsPermutation mentions.entry result.items }
{
    let mut ordered = mentions.into_vec();
    ordered.sort_unstable_by(|one, other| {
        one.name
            .cmp(&other.name)
            .then(one.run.from.get().cmp(&other.run.from.get()))
    });
    ordered
}

/// The sequences of which mentions tell.
pub(crate) fn gather(
    alloc: Global,
    mentions: List<Mention<'_>>,
    names: &FieldNames,
) -> Result<Vec<User>, AllocError>
    requires { All IsMention mentions }
    ensures { IfOk result (λ users. IsGathered (is_name_in names.now) mentions.entry (map told users.items)) }
{
    let ordered = in_order(mentions);
    let mut users = Vec::new(alloc);
    for mention in ordered.as_slice() {
        let public = names.has(mention.name);
        add_run(alloc, &mut users, mention.name, mention.run, public)?;
    }
    Ok(users)
}
