// Base64 text read.
ghost use Rattle.std.specs.Prelude.{◌≡◌, ◌==◌, ◌++◌, ◌≤◌, not, length, drop, take_while};
ghost use Rattle.std.specs.List.{prefix_len};
ghost use Rattle.mime_codes.specs.Base64.{b64_decoded};

use crate::symbols::Symbols;

fn padding_place(text: &[u8]) -> usize
    ensures value { result ≡ prefix_len (λ c. not (c == 61)) text.now }
    ensures inside { result ≤ length text.now }
{
    text.iter().take_while(|byte| **byte != b'=').count()
}

fn before_padding(text: &[u8]) -> &[u8]
    ensures value { result.now ≡ take_while (λ c. not (c == 61)) text.now }
    ensures inside { length result.now ≤ length text.now }
{
    let (front, _) = text.split_at(padding_place(text));
    front
}

/// Decodes a base64 text (RFC 2045, section 6.8). The bytes are written at the front of `into`, the rest of which
/// stays; the count of the bytes is returned.
pub fn b64_decode(into: &mut [u8], from: &[u8]) -> usize
    requires { length into.old ≡ length from.now }
    ensures count { result ≡ length (b64_decoded from.now) }
    ensures written { into.new ≡ b64_decoded from.now ++ drop result into.old }
{
    let mut symbols = Symbols::new();
    let mut count = 0;
    let mut rest = before_padding(from);
    while !rest.is_empty() {
        let (text, behind) = rest.split_at(rest.len().min(symbols.room()));
        symbols.take(text);
        if symbols.is_full() {
            count = symbols.decode(into, count);
        }
        rest = behind;
    }
    symbols.decode(into, count)
}
