// Messages that are too long.
ghost use Rattle.std.specs.Prelude.{◌≡◌};
ghost use Rattle.mbox_drop.specs.Long.{long_of, overlong_of};

/// The longest message that is taken, in bytes.
const LONGEST_MESSAGE: u64 = 67_108_864;

/// The most bytes that such a message may have with an empty line of two bytes after it and the `From ` of the next
/// separator.
const LONGEST_HAND: u64 = 67_108_871;

/// The length of a message, where it is too long.
pub fn too_long(length: usize) -> Option<u64>
    ensures { result ≡ long_of length }
{
    let length = length as u64;
    if length > LONGEST_MESSAGE {
        Some(length)
    } else {
        None
    }
}

/// The number of the bytes after a separator line, where no message of the right length can end in them.
pub fn overlong(length: usize) -> Option<u64>
    ensures { result ≡ overlong_of length }
{
    let length = length as u64;
    if length > LONGEST_HAND {
        Some(length)
    } else {
        None
    }
}
