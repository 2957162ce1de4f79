// What a draft wants is read, in its order.
ghost use Rattle.std.specs.Prelude.{[]};
ghost use Rattle.file_plans.specs.Follows.{Follows, by_hand};
ghost use Rattle.step_plans.specs.CommandFaults.{command_cause};
ghost use Rattle.draft_contents.specs.Wants.{all_given, forward_given, want_given};

use crate::Forwarding;
use crate::files::give_file;
use crate::folder::{forwarded_folder, specs_or_current};
use crate::messages::give_messages;
use folder_files::Files;
use mh_base::{List, Text, TextList};
use mh_drafts::Want;
use mhbuild_compose::{Given, GivenList};
use std::alloc::Global;
use step_plans::{CommandFault, Hand};

/// The messages that these words choose, of the folder that its word names, or else of the current one.
fn forward<F: Files>(
    alloc: Global,
    hand: &Hand,
    files: &mut F,
    forwarding: &Forwarding,
    word: &Option<Text>,
    specs: &TextList,
) -> Result<Given, CommandFault>
    ensures { Follows hand.now.run command_cause (forward_given hand.now.mail forwarding.now word.now specs.now)
        (by_hand hand.now.kept (F.state files.old)) (by_hand hand.now.kept (F.state files.new)) result }
{
    let folder = forwarded_folder(alloc, forwarding, word)?;
    let specs = specs_or_current(alloc, specs)?;
    let messages = give_messages(alloc, hand, files, forwarding, &folder, &specs)?;
    Ok(Given::Messages(messages))
}

fn give<F: Files>(
    alloc: Global,
    hand: &Hand,
    files: &mut F,
    forwarding: &Forwarding,
    want: &Want,
) -> Result<Given, CommandFault>
    ensures { Follows hand.now.run command_cause (want_given hand.now.mail forwarding.now want.now)
        (by_hand hand.now.kept (F.state files.old)) (by_hand hand.now.kept (F.state files.new)) result }
{
    match want {
        Want::File(path) => give_file(alloc, hand.run(), files, path),
        Want::Messages { folder, specs } => {
            forward(alloc, hand, files, forwarding, folder, specs)
        }
    }
}

/// All that is wanted, in its order: a file that isn't there, a word that is no folder's name, a folder that isn't
/// there, words that choose no messages, or a text that is too long ends the call, the first of them.
pub fn give_all<F: Files>(
    alloc: Global,
    hand: &Hand,
    files: &mut F,
    forwarding: &Forwarding,
    wants: &[Want],
) -> Result<GivenList, CommandFault>
    ensures { Follows hand.now.run command_cause (all_given hand.now.mail forwarding.now [] wants.now)
        (by_hand hand.now.kept (F.state files.old)) (by_hand hand.now.kept (F.state files.new)) result }
{
    let mut givens = List::new(alloc);
    for want in wants {
        let given = give(alloc, hand, files, forwarding, want)?;
        givens.push(given)?;
    }
    Ok(givens)
}
