// Quoted-printable text read.
ghost use Rattle.std.specs.Prelude.{◌≡◌, ◌++◌, length, drop};
ghost use Rattle.mime_codes.specs.QuotedPrintable.{qp_decoded};

use crate::piece::{Piece, first_piece};

/// Decodes a quoted-printable text (RFC 2045, section 6.7). The bytes are written at the front of `into`, the rest of
/// which stays; the count of the bytes is returned.
pub fn qp_decode(into: &mut [u8], from: &[u8]) -> usize
    requires { length into.old ≡ length from.now }
    ensures count { result ≡ length (qp_decoded from.now) }
    ensures written { into.new ≡ qp_decoded from.now ++ drop result into.old }
{
    let mut rest = from;
    let mut count = 0;
    while let Some(piece) = first_piece(rest) {
        match piece {
            Piece::Byte { value, len } => {
                into[count] = value;
                count += 1;
                (_, rest) = rest.split_at(len);
            }
            Piece::Blanks { len } => {
                let (blanks, behind) = rest.split_at(len);
                into[count..count + len].copy_from_slice(blanks);
                count += len;
                rest = behind;
            }
            Piece::Nothing { len } => (_, rest) = rest.split_at(len),
        }
    }
    count
}
