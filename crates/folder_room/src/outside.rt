// Files outside the mailbox.
ghost use Rattle.std.specs.Prelude.{◌≡◌, ◌<◌, OnOk, OnErr, IfSome, IfNone, length, ℕ};
ghost use Rattle.folder_files.specs.Histories.{after_delivery};
ghost use Rattle.folder_files.specs.Places.{same_path};
ghost use Rattle.folder_room.specs.Positions.{SkipsBy, IsAtBy};
ghost use Rattle.folder_files.specs.Steps.{made};
ghost use Rattle.folder_files.specs.Worlds.{shown};
ghost use Rattle.folder_files.specs.declared.step.Step.TheVariants as step;

use folder_files::{FilePath, Outside, World};
use mh_base::{Bytes, Duplicate};
use std::alloc::{AllocError, Global};

/// Where the file of this path stands.
pub fn outside_position(drops: &[Outside], path: &FilePath) -> Option<usize>
    ensures found { IfSome result
        (λ i. (i < length drops.now) × SkipsBy (λ o. same_path o.path path.now) drops.now i
        × IsAtBy (λ o. same_path o.path path.now) drops.now i) }
    ensures none { IfNone result (SkipsBy (λ o. same_path o.path path.now) drops.now (length drops.now)) }
{
    for index in 0..drops.len() {
        if drops[index].path.same(path) {
            return Some(index);
        }
    }
    None
}

/// The file is cut to nothing, where it has this length.
pub fn cut_drop(alloc: Global, world: &mut World, path: &FilePath, cut: u64)
    ensures { (run : ℕ) → shown world.new ≡ made (shown world.old) run (step.CutDrop path.now cut) }
{
    let Some(index) = outside_position(world.drops.as_slice(), path) else {
        return;
    };
    if world.drops.as_slice()[index].bytes.len() as u64 == cut {
        world.drops.get_mut(index).bytes = Bytes::new(alloc);
    }
}

/// The piece is appended to the file, which is made where it isn't there.
pub fn deliver(
    alloc: Global,
    world: &mut World,
    path: &FilePath,
    piece: &Bytes,
) -> Result<(), AllocError>
    ensures ok { OnOk result (shown world.new ≡ after_delivery (shown world.old) path.now piece.now) }
    ensures err { OnErr result (world.new ≡ world.old) }
{
    match outside_position(world.drops.as_slice(), path) {
        Some(index) => world.drops.get_mut(index).bytes.extend(piece.as_slice()),
        None => {
            let path = path.duplicate(alloc)?;
            let bytes = piece.duplicate(alloc)?;
            world.drops.push(Outside { path, bytes })
        }
    }
}
