// Which messages of a folder are unseen.
ghost use Rattle.std.specs.Prelude.{◌≡◌, ◌||◌, ℕ, IfOk, OnOk};
ghost use Rattle.mh_sequences.specs.Runs.{has};
ghost use Rattle.mh_sequences.specs.Sequences.{member};
ghost use Rattle.msg_ranges.specs.Selection.{marks_of};
ghost use Rattle.message_lines.specs.Standings.{is_marked_in};
ghost use Rattle.mh_looks.specs.Scan.{standing_by};

use message_lines::{Standing, is_current};
use mh_base::MsgNum;
use mh_sequences::{NumSet, Pile, SeqName, Sequences};
use std::alloc::{AllocError, Global};
use std::marker::Model;

/// A folder's sequences, and which of its messages are unseen. Contracts see the sequences, and the names of those whose
/// messages are.
#[derive(Drop)]
pub(crate) struct Unseen<'a> {
    sequences: &'a Sequences,
    names: &'a [SeqName],
    numbers: NumSet,
}

impl<'a> Model for Unseen<'a> {
    ghost use Rattle.std.specs.Prelude.{◌≡◌, ℕ};
    ghost use Rattle.mh_sequences.specs.Runs.{has};
    ghost use Rattle.mh_sequences.specs.Sequences.{member};
    ghost use Rattle.message_lines.specs.Standings.{is_marked_in};
    ghost use Rattle.mh_looks.specs.UnseenIn.{UnseenIn};

    ghost Value = { UnseenIn };

    ghost view = { λ u. record { sequences = u.sequences.now; names = u.names.now } };

    ghost invariant = { λ u. (n : ℕ) → has u.numbers.runs n ≡ is_marked_in (member u.sequences.now.users) u.names.now n };
}

/// Adds the numbers of the sequence of a name, where there is one.
fn add_named(pile: &mut Pile, sequences: &Sequences, name: &SeqName) -> Result<(), AllocError>
    ensures { OnOk result ((n : ℕ) → has pile.new n ≡ (has pile.old n || member sequences.now.users name.now n)) }
{
    match sequences.get(name) {
        Some(numbers) => pile.add_set(numbers),
        None => Ok(()),
    }
}

/// The numbers that one of the sequences of these names has.
fn all_numbers(
    alloc: Global,
    sequences: &Sequences,
    names: &[SeqName],
) -> Result<NumSet, AllocError>
    ensures { IfOk result (λ s. (n : ℕ) → has s.runs n ≡ is_marked_in (member sequences.now.users) names.now n) }
{
    let mut pile = Pile::new(alloc);
    for name in names {
        add_named(&mut pile, sequences, name)?;
    }
    pile.into_set()
}

impl<'a> Unseen<'a> {
    pub fn of(
        alloc: Global,
        sequences: &'a Sequences,
        names: &'a [SeqName],
    ) -> Result<Unseen<'a>, AllocError>
        ensures { IfOk result (λ u. (u.sequences ≡ sequences.now) × (u.names ≡ names.now)) }
    {
        Ok(Unseen {
            sequences,
            names,
            numbers: all_numbers(alloc, sequences, names)?,
        })
    }

    /// How the message of this number stands in the folder.
    pub fn standing(&self, number: MsgNum) -> Standing
        ensures { result ≡ standing_by (marks_of self.now.sequences) self.now.names number }
    {
        Standing {
            current: is_current(self.sequences, number),
            unseen: self.numbers.has(number),
        }
    }
}
