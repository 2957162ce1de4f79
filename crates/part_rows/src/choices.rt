// Which parts are chosen.
ghost use Rattle.std.specs.Prelude.{◌≡◌, ℕ, List};
ghost use Rattle.part_rows.specs.Choices.{is_listed as stands_listed, is_named as stands_named, is_stored as stands_stored};
ghost use Rattle.part_rows.specs.Chosen.{chooses};
ghost use Rattle.part_rows.specs.PartViews.{view_of};

use crate::wanted::Wanted;
use mime_tree::Part;

/// The parts of which rows tell, or those that are stored, where these paths are wanted.
#[derive(Drop)]
pub(crate) enum Choice<'a> {
    Listed(Wanted<'a>),
    Stored(Wanted<'a>),
}

fn is_named(wanted: &Wanted<'_>, part: &Part) -> bool
    ensures { (bytes : List ℕ) → result ≡ stands_named wanted.now (view_of bytes part.now) }
{
    wanted.has(&part.path)
}

fn is_listed(wanted: &Wanted<'_>, part: &Part) -> bool
    ensures { (bytes : List ℕ) → result ≡ stands_listed wanted.now (view_of bytes part.now) }
{
    wanted.is_empty() || is_named(wanted, part)
}

fn is_stored(wanted: &Wanted<'_>, part: &Part) -> bool
    ensures { (bytes : List ℕ) → result ≡ stands_stored wanted.now (view_of bytes part.now) }
{
    if wanted.is_empty() {
        part.kids.is_empty()
    } else {
        is_named(wanted, part)
    }
}

impl Choice<'_> {
    pub(crate) fn has(&self, part: &Part) -> bool
        ensures { (bytes : List ℕ) → result ≡ chooses self.now (view_of bytes part.now) }
    {
        match self {
            Choice::Listed(wanted) => is_listed(wanted, part),
            Choice::Stored(wanted) => is_stored(wanted, part),
        }
    }
}
