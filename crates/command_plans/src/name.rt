// The commands that there are.

/// A command.
#[derive(Clone, Copy, Debug, PartialEq, Eq)]
pub enum CommandName {
    Inc,
    Scan,
    Pick,
    Mark,
    Refile,
    Rmm,
    Folder,
    Anno,
    Sortm,
    Mhlist,
    Mhstore,
    Mhbuild,
}
