// Where steps are made, as steps name it and as the system does. The current directory is `trial/work`.
use folder_files::{FilePath, Place};
use mh_base::{Bytes, FolderName, Text};
use std::alloc::Global;
use std::test::Fail;

/// A directory in which steps are made.
#[derive(Clone, Copy)]
pub enum At {
    Home,
    Work,
    Mail,
    Inbox,
    Sub,
}

pub const ALL: &[At] = &[At::Home, At::Work, At::Mail, At::Inbox, At::Sub];

/// A mail directory, as a profile has it and from the current directory.
#[derive(Clone, Copy)]
pub struct Site {
    text: &'static str,
    path: &'static str,
}

const SITES: &[Site] = &[
    Site {
        text: "Mail",
        path: "../home/Mail",
    },
    Site {
        text: ".//Mail//",
        path: "../home/Mail",
    },
    Site {
        text: "deep/er/Mail",
        path: "../home/deep/er/Mail",
    },
];

pub const HOME: &str = "../home";

const INBOX: &str = "inbox";

const SUB: &str = "inbox/sub";

/// One of the mail directories, by a number.
pub fn one_site(number: usize) -> Result<Site, Fail> {
    match SITES.get(number % 3) {
        Some(site) => Ok(*site),
        None => Err("a site".into()),
    }
}

fn folder(alloc: Global, mail: &str, name: &str) -> Result<Place, Fail> {
    let name = FolderName::read(alloc, &Text::from_str(alloc, name)?)?;
    Ok(Place::Folder(Bytes::from_slice(alloc, mail.as_bytes())?, name))
}

impl At {
    pub fn label(self) -> &'static str {
        match self {
            At::Home => "~",
            At::Work => ".",
            At::Mail => "Mail",
            At::Inbox => "+inbox",
            At::Sub => "+inbox/sub",
        }
    }
}

impl Site {
    pub fn place(&self, alloc: Global, at: At) -> Result<Place, Fail> {
        match at {
            At::Home => Ok(Place::Home),
            At::Work => Ok(Place::Work),
            At::Mail => Ok(Place::Mail(Bytes::from_slice(alloc, self.text.as_bytes())?)),
            At::Inbox => folder(alloc, self.text, INBOX),
            At::Sub => folder(alloc, self.text, SUB),
        }
    }

    pub fn path(&self, alloc: Global, at: At) -> Result<String, Fail> {
        let mail = self.path;
        match at {
            At::Home => Ok(String::from_str(alloc, HOME)?),
            At::Work => Ok(String::from_str(alloc, ".")?),
            At::Mail => Ok(String::from_str(alloc, mail)?),
            At::Inbox => Ok(format!(in alloc; "{mail}/{INBOX}")?),
            At::Sub => Ok(format!(in alloc; "{mail}/{SUB}")?),
        }
    }
}

/// A file outside the mailbox, as a step names it and from the current directory.
#[derive(Clone, Copy)]
pub struct Outside {
    home: bool,
    text: &'static str,
    pub path: &'static str,
    /// A file beside it, to which it may be a link.
    pub link_text: &'static str,
    pub link_path: &'static str,
}

/// The files that mail is delivered to.
pub const DROPS: &[Outside] = &[
    Outside {
        home: true,
        text: "spool/a",
        path: "../home/spool/a",
        link_text: "a.file",
        link_path: "../home/spool/a.file",
    },
    Outside {
        home: false,
        text: "spool/b",
        path: "spool/b",
        link_text: "b.file",
        link_path: "spool/b.file",
    },
];

/// Files that are never there.
pub const MISSING: &[Outside] = &[
    Outside {
        home: true,
        text: "spool/none",
        path: "../home/spool/none",
        link_text: "none.file",
        link_path: "../home/spool/none.file",
    },
    Outside {
        home: false,
        text: "nowhere/none",
        path: "nowhere/none",
        link_text: "none.file",
        link_path: "nowhere/none.file",
    },
];

impl Outside {
    pub fn file_path(&self, alloc: Global) -> Result<FilePath, Fail> {
        Ok(FilePath {
            home: self.home,
            text: Bytes::from_slice(alloc, self.text.as_bytes())?,
        })
    }
}
