// Steps on a drop.
ghost use Rattle.std.specs.Prelude.{IfOk};
ghost use Rattle.folder_files.specs.Rows.{IsCutRow, IsPieceRow};

use crate::fault::{Found, HostFault, fault};
use crate::held_drop::{HeldDrop, take_drop};
use crate::paths::Paths;
use crate::reading::read_piece;
use crate::room::ReadRoom;
use folder_files::{Answer, FilePath};
use std::alloc::Global;
use std::fs::File;

/// The drop that this process has locked, one at most.
#[derive(Drop)]
pub(crate) struct Drops {
    held: Option<HeldDrop>,
}

impl Drops {
    pub(crate) fn new() -> Drops {
        Drops { held: None }
    }

    /// Lets the drop go, where one is locked.
    pub(crate) fn release(&mut self, rt: &HostRuntime) {
        if let Some(held) = self.held.take() {
            held.release(rt);
        }
    }

    fn has(&self, path: &str) -> bool {
        match &self.held {
            Some(held) => held.is_of(path),
            None => false,
        }
    }

    /// Sees to it that this drop is locked, and no other.
    fn hold(
        &mut self,
        rt: &HostRuntime,
        alloc: Global,
        path: &str,
    ) -> Result<Found<()>, HostFault> {
        if self.has(path) {
            return Ok(Found::There(()));
        }
        self.release(rt);
        match take_drop(rt, alloc, path)? {
            Found::There(held) => {
                self.held = Some(held);
                Ok(Found::There(()))
            }
            _ => Ok(Found::Gone),
        }
    }

    fn handle(&self, rt: &HostRuntime) -> Result<(File, u64), HostFault> {
        match &self.held {
            Some(held) => held.handle(rt),
            None => Err(fault("no drop is locked")),
        }
    }

    pub(crate) fn read(
        &mut self,
        rt: &HostRuntime,
        alloc: Global,
        paths: &Paths,
        room: &mut ReadRoom,
        path: &FilePath,
        from: u64,
        most: u64,
    ) -> Result<Answer, HostFault>
        ensures { IfOk result (IsPieceRow most) }
    {
        let path = paths.file(alloc, path)?;
        let Found::There(()) = self.hold(rt, alloc, path.as_str())? else {
            return Ok(Answer::Gone);
        };
        let (file, length) = self.handle(rt)?;
        Ok(Answer::Piece {
            bytes: read_piece(alloc, room, file, from, most, length)?,
            length,
        })
    }

    fn cut_held(&self, rt: &HostRuntime, length: u64) -> Result<Answer, HostFault>
        ensures { IfOk result IsCutRow }
    {
        match &self.held {
            Some(held) => held.cut(rt, length),
            None => Err(fault("no drop is locked")),
        }
    }

    /// Cuts a drop, and lets it go.
    pub(crate) fn cut(
        &mut self,
        rt: &HostRuntime,
        alloc: Global,
        paths: &Paths,
        path: &FilePath,
        length: u64,
    ) -> Result<Answer, HostFault>
        ensures { IfOk result IsCutRow }
    {
        let path = paths.file(alloc, path)?;
        let Found::There(()) = self.hold(rt, alloc, path.as_str())? else {
            return Ok(Answer::Gone);
        };
        let cut = self.cut_held(rt, length);
        self.release(rt);
        cut
    }
}
