// What a change leaves of a folder of the mailbox in memory.
use folder_files::{Files, Place};
use folder_room::PromptList;
use mh_base::Bytes;
use row_mailboxes::{Given, place};
use row_rooms::Scene;
use row_text::words;
use std::alloc::Global;
use std::test::Fail;

/// A change of a folder.
pub trait Change {
    /// Whether it is made as it is to be.
    fn is_made<F: Files>(alloc: Global, files: &mut F, place: &Place) -> Result<bool, Fail>;
}

/// The folder. It stands in a list, since a list is dropped by one look, whatever its places are.
fn inboxes(alloc: Global) -> Result<Vec<Place>, Fail> {
    let mail = Bytes::from_slice(alloc, b"Mail")?;
    let mut places = Vec::new(alloc);
    places.push(place(alloc, &mail, b"+inbox")?)?;
    Ok(places)
}

fn are_made<C: Change, F: Files>(alloc: Global, files: &mut F) -> Result<bool, Fail> {
    let inboxes = inboxes(alloc)?;
    for inbox in inboxes.as_slice() {
        if !C::is_made(alloc, files, inbox)? {
            return Ok(false);
        }
    }
    Ok(true)
}

/// The mailbox of this line.
fn scene(alloc: Global, line: &[u8]) -> Result<Scene, Fail> {
    let mut given = Given::new(alloc)?;
    given.line(&words(alloc, line)?)?;
    Scene::new(alloc, &given, PromptList::new(alloc))
}

fn shown(alloc: Global, scene: &mut Scene) -> Result<Bytes, Fail> {
    let mut told = Bytes::new(alloc);
    scene.line(&words(alloc, b"show +inbox")?, &mut told)?;
    Ok(told)
}

fn shown_where<C: Change>(alloc: Global, scene: &mut Scene) -> Result<Bytes, Fail> {
    if are_made::<C, _>(alloc, &mut *scene.room)? {
        shown(alloc, scene)
    } else {
        Ok(Bytes::new(alloc))
    }
}

/// What is shown of the folder then, or nothing where the change isn't made so.
pub fn left<C: Change>(alloc: Global, line: &[u8]) -> Result<Bytes, Fail> {
    let mut scene = scene(alloc, line)?;
    shown_where::<C>(alloc, &mut scene)
}
