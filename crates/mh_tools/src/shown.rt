// Bytes as a terminal may show them.
ghost use Rattle.std.specs.Prelude.{◌≡◌, IfOk};
ghost use Rattle.mh_tools.specs.Shown.{shown_byte, shown as shown_bytes};

use mh_base::Bytes;
use std::alloc::{AllocError, Global};

fn show_byte(byte: u8) -> u8
    ensures { result ≡ shown_byte byte }
{
    if 32 <= byte && byte <= 126 {
        byte
    } else {
        b'?'
    }
}

/// Printable ASCII, with a question mark for each other byte.
pub(crate) fn shown(alloc: Global, bytes: &[u8]) -> Result<Bytes, AllocError>
    ensures { IfOk result (λ text. text ≡ shown_bytes bytes.now) }
{
    Ok(Bytes::from_vec(bytes.iter().map(|byte| show_byte(*byte)).collect(alloc)?))
}
