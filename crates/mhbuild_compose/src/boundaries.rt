// Boundaries.
ghost use Rattle.std.specs.Prelude.{◌≡◌, ◌++◌, ◌<◌, false, OnOk};
ghost use Rattle.std.specs.Fmt.{digit_glyph};
ghost use Rattle.mh_base.specs.Numbers.{hex};
ghost use Rattle.mhbuild_compose.specs.Boundaries.{boundary_of, mark_of};

use mh_base::Bytes;
use std::alloc::AllocError;

fn digit(value: u8) -> u8
    requires { value < 16 }
    ensures { result ≡ digit_glyph false value }
{
    if value < 10 {
        b'0' + value
    } else {
        b'a' + (value - 10)
    }
}

/// The last hexadecimal digits of a number, so many.
#[tactic(auto, unfolding(mh_base::specs::Numbers::hex))]
pub(crate) fn put_hex(out: &mut Bytes, count: u64, value: u128) -> Result<(), AllocError>
    ensures { OnOk result (out.new ≡ out.old ++ hex count value) }
{
    if count == 0 {
        return out.extend(b"");
    }
    put_hex(out, count - 1, value / 16)?;
    out.extend(&[digit((value % 16) as u8)])
}

/// What the boundaries of a run begin with.
pub(crate) fn put_mark(out: &mut Bytes, run: u128) -> Result<(), AllocError>
    ensures { OnOk result (out.new ≡ out.old ++ mark_of run) }
{
    out.extend(b"mh-")?;
    put_hex(out, 32, run)?;
    out.extend(b"-")
}

/// The boundary of this key.
#[tactic(auto, unfolding(crate::specs::Boundaries::boundary_of))]
pub(crate) fn put_boundary(out: &mut Bytes, run: u128, key: u64) -> Result<(), AllocError>
    ensures { OnOk result (out.new ≡ out.old ++ boundary_of run key) }
{
    put_mark(out, run)?;
    put_hex(out, 16, key as u128)
}
