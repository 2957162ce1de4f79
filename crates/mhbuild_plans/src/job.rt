// What `mhbuild` is to do.

use draft_contents::Forwarding;
use draft_files::DraftName;

/// What `mhbuild` is to do: the draft's name in the current directory, or none where the draft is the input; and what
/// forwards messages.
#[derive(Drop)]
pub struct BuildJob {
    pub draft: Option<DraftName>,
    pub forwarding: Forwarding,
}
