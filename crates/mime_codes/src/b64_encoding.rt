// Base64 text written.
ghost use Rattle.std.specs.Prelude.{◌≡◌, ◌≤◌, ◌++◌, ◌∷◌, [], true, length, IfOk, OnOk};
ghost use Rattle.base64.specs.Rfc4648.{encode};
ghost use Rattle.mime_codes.specs.Base64.{alphabet, b64_encoded, b64_decoded};

use base64::engine::general_purpose::STANDARD;
use mh_base::Bytes;
use std::alloc::{AllocError, Global};

/// How many bytes a line of 76 characters encodes.
const LINE: usize = 57;

fn put_line(text: &mut Vec<u8>, bytes: &[u8]) -> Result<(), AllocError>
    requires { length bytes.now ≤ 57 }
    ensures { OnOk result (text.new.items ≡ text.old.items ++ encode alphabet 61 true bytes.now ++ 10 ∷ []) }
{
    let mut symbols = [0u8; 76];
    let Ok(len) = STANDARD.encode_slice(bytes, &mut symbols) else {
        unreachable!();
    };
    text.extend_from_slice(&symbols[..len])?;
    text.push(b'\n')?;
    Ok(())
}

/// Encodes bytes as a base64 text with padding, in lines of 76 characters (RFC 2045, section 6.8).
pub fn b64_encode(alloc: Global, from: &[u8]) -> Result<Bytes, AllocError>
    ensures value { IfOk result (λ text. text ≡ b64_encoded from.now) }
    ensures back { IfOk result (λ text. b64_decoded text ≡ from.now) }
{
    let mut text = Vec::new(alloc);
    let mut rest = from;
    while !rest.is_empty() {
        let (line, behind) = rest.split_at(rest.len().min(LINE));
        put_line(&mut text, line)?;
        rest = behind;
    }
    Ok(Bytes::from_vec(text))
}
