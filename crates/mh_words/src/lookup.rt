// A switch by its name, or by the beginning of it.
ghost use Rattle.std.specs.Prelude.{◌≡◌};
ghost use Rattle.std.specs.Str.{chars};
ghost use Rattle.mh_words.specs.Lookups.{Finds, IsLikeness, one_more};

use crate::{Kind, SwitchList};

/// What a text names in a table.
#[derive(Clone, Copy)]
pub enum Found {
    Nothing,
    One(u64, Kind),
    Several,
}

/// How a switch's name stands beside a text.
#[derive(Clone, Copy)]
pub enum Likeness {
    Same,
    Longer,
    Unlike,
}

/// Compares a switch's name with the text.
fn likeness_of(name: &str, text: &str) -> Likeness
    ensures { IsLikeness (chars name.now) (chars text.now) result }
{
    match name.strip_prefix(text) {
        None => Likeness::Unlike,
        Some(rest) => {
            if rest.is_empty() {
                Likeness::Same
            } else {
                Likeness::Longer
            }
        }
    }
}

/// What was found, with one more switch whose name is longer than the text.
fn with_one_more(found: Found, index: u64, kind: Kind) -> Found
    ensures { result ≡ one_more found index kind }
{
    match found {
        Found::Nothing => Found::One(index, kind),
        Found::One(_, _) | Found::Several => Found::Several,
    }
}

/// The switch that the text names. Each switch's name is compared with the text once at most.
pub fn find_switch(switches: &SwitchList, text: &str) -> Found
    ensures { Finds switches.now (chars text.now) result }
{
    let mut found = Found::Nothing;
    for (index, switch) in switches.as_slice().iter().enumerate() {
        match likeness_of(switch.name.as_str(), text) {
            Likeness::Same => return Found::One(index as u64, switch.kind),
            Likeness::Longer => found = with_one_more(found, index as u64, switch.kind),
            Likeness::Unlike => {}
        }
    }
    found
}
