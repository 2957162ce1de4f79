// The commands that there are, by name.
ghost use Rattle.std.specs.Prelude.{◌≡◌};
ghost use Rattle.command_plans.specs.CommandNames.{named};
ghost use Rattle.command_line.specs.NameRows.{found as found_in};

use command_plans::CommandName;

/// The commands, by name.
const COMMANDS: [(&str, CommandName); 12] = [
    ("inc", CommandName::Inc),
    ("scan", CommandName::Scan),
    ("mark", CommandName::Mark),
    ("rmm", CommandName::Rmm),
    ("refile", CommandName::Refile),
    ("pick", CommandName::Pick),
    ("folder", CommandName::Folder),
    ("anno", CommandName::Anno),
    ("sortm", CommandName::Sortm),
    ("mhlist", CommandName::Mhlist),
    ("mhstore", CommandName::Mhstore),
    ("mhbuild", CommandName::Mhbuild),
];

/// The command that stands beside this name first.
fn found(rows: &[(&str, CommandName)], word: &str) -> Option<CommandName>
    ensures { result ≡ found_in word.now rows.now }
{
    for row in rows {
        if word == row.0 {
            return Some(row.1);
        }
    }
    None
}

/// The command of this name, if there is one.
pub(crate) fn command_named(word: &str) -> Option<CommandName>
    ensures { result ≡ named word.now }
{
    found(&COMMANDS, word)
}
