// Numbers from their decimal text.
ghost use Rattle.std.specs.Prelude.{◌≡◌};
ghost use Rattle.mh_base.specs.Numbers.{decimal_of};

use itoa::Buffer;
use std::str;

/// The number whose decimal text this is: what is read is printed again and compared, so signs and
/// leading zeros are no such text.
pub(crate) fn read_decimal(bytes: &[u8]) -> Option<u64>
    ensures { result ≡ decimal_of bytes.now }
{
    let Ok(text) = str::from_utf8(bytes) else {
        return None;
    };
    let Ok(value) = text.parse::<u64>() else {
        return None;
    };
    let mut buffer = Buffer::new();
    if buffer.format(value).as_bytes() == bytes {
        Some(value)
    } else {
        None
    }
}
