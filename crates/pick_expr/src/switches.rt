// The switches of the command `pick`.
ghost use Rattle.std.specs.Prelude.{◌≡◌};
ghost use Rattle.pick_expr.specs.Switches.{switch_at};

use mh_words::Kind;

/// What a switch of the command `pick` is to its expression.
#[derive(Clone, Copy, Debug, PartialEq, Eq)]
pub enum PickSwitch {
    And,
    Or,
    Not,
    Lbrace,
    Rbrace,
    From,
    To,
    Cc,
    Subject,
    Date,
    Search,
    Before,
    After,
    Datefield,
    /// It is no part of the expression.
    Aside,
}

/// The names of the switches, in the order of the command's table.
pub const SWITCHES: [(&str, Kind); 21] = [
    ("and", Kind::Flag),
    ("or", Kind::Flag),
    ("not", Kind::Flag),
    ("lbrace", Kind::Flag),
    ("rbrace", Kind::Flag),
    ("from", Kind::Value),
    ("to", Kind::Value),
    ("cc", Kind::Value),
    ("subject", Kind::Value),
    ("date", Kind::Value),
    ("search", Kind::Value),
    ("before", Kind::Value),
    ("after", Kind::Value),
    ("datefield", Kind::Value),
    ("sequence", Kind::Value),
    ("public", Kind::Flag),
    ("nopublic", Kind::Flag),
    ("zero", Kind::Flag),
    ("nozero", Kind::Flag),
    ("list", Kind::Flag),
    ("nolist", Kind::Flag),
];

impl PickSwitch {
    /// The switch at this place of the command's table, from 0.
    pub fn at(index: u64) -> PickSwitch
        ensures { result ≡ switch_at index }
    {
        match index {
            0 => PickSwitch::And,
            1 => PickSwitch::Or,
            2 => PickSwitch::Not,
            3 => PickSwitch::Lbrace,
            4 => PickSwitch::Rbrace,
            5 => PickSwitch::From,
            6 => PickSwitch::To,
            7 => PickSwitch::Cc,
            8 => PickSwitch::Subject,
            9 => PickSwitch::Date,
            10 => PickSwitch::Search,
            11 => PickSwitch::Before,
            12 => PickSwitch::After,
            13 => PickSwitch::Datefield,
            _ => PickSwitch::Aside,
        }
    }
}
