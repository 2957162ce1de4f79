// The switches of each command: what the usage lines say of them, and the shells' completions.
use command_words::{component_table, switch_table};
use mh_words::{Kind, SwitchTable};
use std::alloc::{AllocError, Global};

/// What the word behind a switch may be, where a shell can offer it.
#[derive(Clone, Copy, PartialEq, Eq)]
pub enum Offers {
    /// The switch stands alone.
    NoWord,
    /// A word that no shell knows.
    Nothing,
    Files,
    Folders,
    Sequences,
    /// One of these.
    Words(&'static str),
}

/// A switch: its name, what the usage line calls the word behind it, and what a shell offers there.
pub type Row = (&'static str, &'static str, Offers);

/// How switches that belong together stand in the usage line.
#[derive(Clone, Copy, PartialEq, Eq)]
pub enum Form {
    /// One of them may be given.
    Maybe,
    /// It may be given several times.
    Many,
    Must,
    /// Another word of the usage line stands for them.
    Within,
}

pub type Group = (Form, &'static [Row]);

const DAYS: &str =
    "today yesterday tomorrow monday tuesday wednesday thursday friday saturday sunday";

const ANNO: &[Group] = &[
    (Form::Must, &[("component", "NAME", Offers::Nothing)]),
    (Form::Maybe, &[("text", "TEXT", Offers::Nothing)]),
    (
        Form::Maybe,
        &[("date", "", Offers::NoWord), ("nodate", "", Offers::NoWord)],
    ),
];

const FOLDER: &[Group] = &[(
    Form::Within,
    &[("pack", "", Offers::NoWord), ("nopack", "", Offers::NoWord)],
)];

const INC: &[Group] = &[
    (Form::Maybe, &[("file", "DROP", Offers::Files)]),
    (
        Form::Maybe,
        &[
            ("truncate", "", Offers::NoWord),
            ("notruncate", "", Offers::NoWord),
        ],
    ),
    (
        Form::Maybe,
        &[
            ("changecur", "", Offers::NoWord),
            ("nochangecur", "", Offers::NoWord),
        ],
    ),
    (
        Form::Maybe,
        &[
            ("format", "TEXT", Offers::Nothing),
            ("form", "FILE", Offers::Files),
        ],
    ),
    (Form::Maybe, &[("width", "COLUMNS", Offers::Nothing)]),
    (
        Form::Maybe,
        &[
            ("silent", "", Offers::NoWord),
            ("nosilent", "", Offers::NoWord),
        ],
    ),
];

const MARK: &[Group] = &[
    (Form::Many, &[("sequence", "NAME", Offers::Sequences)]),
    (
        Form::Maybe,
        &[("add", "", Offers::NoWord), ("delete", "", Offers::NoWord)],
    ),
    (
        Form::Maybe,
        &[("zero", "", Offers::NoWord), ("nozero", "", Offers::NoWord)],
    ),
    (
        Form::Maybe,
        &[
            ("public", "", Offers::NoWord),
            ("nopublic", "", Offers::NoWord),
        ],
    ),
    (Form::Maybe, &[("list", "", Offers::NoWord)]),
];

const MHLIST: &[Group] = &[(Form::Many, &[("part", "PART", Offers::Nothing)])];

const MHSTORE: &[Group] = &[
    (Form::Many, &[("part", "PART", Offers::Nothing)]),
    (
        Form::Maybe,
        &[("clobber", "always|never", Offers::Words("always never"))],
    ),
];

const PICK: &[Group] = &[
    (
        Form::Within,
        &[
            ("and", "", Offers::NoWord),
            ("or", "", Offers::NoWord),
            ("not", "", Offers::NoWord),
            ("lbrace", "", Offers::NoWord),
            ("rbrace", "", Offers::NoWord),
            ("from", "PATTERN", Offers::Nothing),
            ("to", "PATTERN", Offers::Nothing),
            ("cc", "PATTERN", Offers::Nothing),
            ("subject", "PATTERN", Offers::Nothing),
            ("date", "PATTERN", Offers::Nothing),
            ("search", "PATTERN", Offers::Nothing),
            ("before", "DATE", Offers::Words(DAYS)),
            ("after", "DATE", Offers::Words(DAYS)),
        ],
    ),
    (Form::Maybe, &[("datefield", "NAME", Offers::Nothing)]),
    (Form::Many, &[("sequence", "NAME", Offers::Sequences)]),
    (
        Form::Maybe,
        &[("zero", "", Offers::NoWord), ("nozero", "", Offers::NoWord)],
    ),
    (
        Form::Maybe,
        &[
            ("public", "", Offers::NoWord),
            ("nopublic", "", Offers::NoWord),
        ],
    ),
    (
        Form::Maybe,
        &[("list", "", Offers::NoWord), ("nolist", "", Offers::NoWord)],
    ),
];

const REFILE: &[Group] = &[
    (Form::Maybe, &[("src", "+folder", Offers::Folders)]),
    (
        Form::Maybe,
        &[("link", "", Offers::NoWord), ("nolink", "", Offers::NoWord)],
    ),
];

const RMM: &[Group] = &[(
    Form::Maybe,
    &[
        ("unlink", "", Offers::NoWord),
        ("nounlink", "", Offers::NoWord),
    ],
)];

const SCAN: &[Group] = &[
    (
        Form::Maybe,
        &[
            ("format", "TEXT", Offers::Nothing),
            ("form", "FILE", Offers::Files),
        ],
    ),
    (Form::Maybe, &[("width", "COLUMNS", Offers::Nothing)]),
    (
        Form::Maybe,
        &[
            ("reverse", "", Offers::NoWord),
            ("noreverse", "", Offers::NoWord),
        ],
    ),
];

const SORTM: &[Group] = &[(
    Form::Maybe,
    &[
        ("datefield", "NAME", Offers::Nothing),
        ("textfield", "NAME", Offers::Nothing),
    ],
)];

/// The switches of a command; none where there is no such command.
pub fn switches_of(command: &str) -> Option<&'static [Group]> {
    match command {
        "anno" => Some(ANNO),
        "folder" => Some(FOLDER),
        "inc" => Some(INC),
        "mark" => Some(MARK),
        "mhbuild" => Some(&[]),
        "mhlist" => Some(MHLIST),
        "mhstore" => Some(MHSTORE),
        "pick" => Some(PICK),
        "refile" => Some(REFILE),
        "rmm" => Some(RMM),
        "scan" => Some(SCAN),
        "sortm" => Some(SORTM),
        _ => None,
    }
}

/// The words of the usage line that are no switches.
pub fn words_of(command: &str) -> &'static [&'static str] {
    match command {
        "folder" => &["[+folder]", "[message | -pack | -nopack]"],
        "inc" => &["[+folder]"],
        "pick" => &["[+folder]", "[messages]", "[tests]"],
        "refile" => &["[messages]", "+folder.."],
        _ => &["[+folder]", "[messages]"],
    }
}

/// The rows of a command, in their order.
pub fn rows_of(alloc: Global, command: &str) -> Result<Vec<Row>, AllocError> {
    let mut rows = Vec::new(alloc);
    for group in switches_of(command).unwrap_or(&[]) {
        rows.extend_from_slice(group.1)?;
    }
    Ok(rows)
}

fn kind_of(offers: Offers) -> Kind {
    if offers == Offers::NoWord {
        Kind::Flag
    } else {
        Kind::Value
    }
}

/// The table that reads the words of a command.
pub fn table_of(alloc: Global, command: &str) -> Result<SwitchTable, AllocError> {
    let mut kinds = Vec::new(alloc);
    for row in rows_of(alloc, command)? {
        kinds.push((row.0, kind_of(row.2)))?;
    }
    if command == "pick" {
        component_table(alloc, &kinds)
    } else {
        switch_table(alloc, &kinds)
    }
}
