// The context, and the folder that is acted on.
ghost use Rattle.std.specs.Prelude.{◌≡◌, IfOk, option_map, codes};
ghost use Rattle.mh_profile.specs.Changes.{value_of};
ghost use Rattle.file_plans.specs.Follows.{Follows, by_hand};
ghost use Rattle.step_plans.specs.CommandFaults.{command_cause};
ghost use Rattle.command_stages.specs.Texts.{text_read};
ghost use Rattle.command_words.specs.Results.{IsNamed};
ghost use Rattle.command_plans.specs.Command.{context_entered, folder_found};
ghost use Rattle.command_plans.specs.Profile.{folder_of, path_of, stored_of};
ghost use Rattle.mh_profile.specs.Reading.{entries_seen};

use crate::profile::inbox;
use command_stages::read_text;
use command_words::read_folder;
use folder_files::{Files, Place};
use mail_text::show_bytes;
use mh_base::{Bytes, Duplicate, FolderName, Name, Text};
use mh_profile::Entries;
use std::alloc::{AllocError, Global};
use step_plans::{CommandFault, Hand};

fn context_name(alloc: Global) -> Result<Name, AllocError>
    ensures { IfOk result (λ name. name ≡ codes "context") }
{
    let text = Bytes::from_slice(alloc, b"context")?;
    Ok(Name::new(text).unwrap())
}

/// The stored name of the current folder: the context's, else the profile's.
fn stored_in(alloc: Global, context: &Entries, profile: &Entries) -> Result<Text, AllocError>
    ensures { IfOk result (λ text. text ≡ stored_of context.now profile.now) }
{
    match context.get(b"Current-Folder")? {
        Some(value) => show_bytes(alloc, value.as_slice()),
        None => inbox(alloc, profile),
    }
}

/// The same, by what the hand knows of the context.
pub fn stored_folder(
    alloc: Global,
    context: Option<&Entries>,
    profile: &Entries,
) -> Result<Text, AllocError>
    ensures { IfOk result
        (λ text. text ≡ stored_of (entries_seen (option_map (λ e. e.now) context.entry)) profile.now) }
{
    match context {
        Some(context) => stored_in(alloc, context, profile),
        None => inbox(alloc, profile),
    }
}

/// The folder that is acted on.
fn folder(
    alloc: Global,
    said: Option<FolderName>,
    hand: &Hand,
    profile: &Entries,
) -> Result<FolderName, CommandFault>
    ensures { IsNamed (folder_of said (entries_seen hand.now.kept.context) profile.now) result }
{
    match said {
        Some(name) => Ok(name),
        None => read_folder(alloc, &stored_folder(alloc, hand.context(), profile)?),
    }
}

/// Reads the context; the hand knows its entries from here on.
pub fn enter_context<F: Files>(
    alloc: Global,
    hand: &mut Hand,
    files: &mut F,
) -> Result<(), CommandFault>
    ensures plan { Follows hand.old.run command_cause (context_entered (Place.Mail hand.old.mail))
        (by_hand hand.old.kept (F.state files.old)) (by_hand hand.new.kept (F.state files.new)) result }
    ensures run { hand.new.run ≡ hand.old.run }
    ensures mail { hand.new.mail ≡ hand.old.mail }
{
    let place = Place::Mail(hand.mail().duplicate(alloc)?);
    let name = context_name(alloc)?;
    let text = read_text(alloc, hand.run(), files, &place, &name)?;
    hand.saw_context(Entries::read(alloc, text.as_slice())?);
    Ok(())
}

/// The folder that is acted on, once the context is read.
pub fn enter_folder<F: Files>(
    alloc: Global,
    hand: &mut Hand,
    files: &mut F,
    profile: &Entries,
    said: Option<FolderName>,
) -> Result<FolderName, CommandFault>
    requires { hand.old.mail ≡ path_of profile.now }
    ensures plan { Follows hand.old.run command_cause (folder_found profile.now said)
        (by_hand hand.old.kept (F.state files.old)) (by_hand hand.new.kept (F.state files.new)) result }
    ensures run { hand.new.run ≡ hand.old.run }
    ensures mail { hand.new.mail ≡ hand.old.mail }
{
    enter_context(alloc, hand, files)?;
    folder(alloc, said, hand, profile)
}
