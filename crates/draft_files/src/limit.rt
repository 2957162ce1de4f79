// Texts that are too long to be read or written.
ghost use Rattle.std.specs.Prelude.{◌≡◌, length};
ghost use Rattle.command_stages.specs.Texts.{too_large as too_large_of};
ghost use Rattle.draft_files.specs.Limits.{within_limit as within_limit_of};

use command_stages::LIMIT;
use folder_files::Refusal;
use mh_base::Bytes;
use step_plans::CommandFault;

/// The refusal of a text of this length.
pub(crate) fn too_large(text: &Bytes) -> CommandFault
    ensures { result ≡ too_large_of (length text.now) }
{
    CommandFault::Refused(Refusal::TooLarge {
        length: text.len() as u64,
        limit: LIMIT,
    })
}

/// A text, or its refusal where it is above the limit.
pub fn within_limit(text: Bytes) -> Result<Bytes, CommandFault>
    ensures { result ≡ within_limit_of text }
{
    if text.len() as u64 > LIMIT {
        Err(too_large(&text))
    } else {
        Ok(text)
    }
}
