// Names of messages.
ghost use Rattle.std.specs.Prelude.{◌≡◌};
ghost use Rattle.msg_ranges.specs.Forms.{name_in, number_name};

use crate::Base;
use mh_base::MsgNum;

fn number(number: Option<MsgNum>) -> Option<Base>
    ensures { result ≡ number_name number }
{
    match number {
        Some(number) => Some(Base::Number(number)),
        None => None,
    }
}

/// Reads a name.
pub(crate) fn read_name(text: &[u8]) -> Option<Base>
    ensures { result ≡ name_in text.now }
{
    if text == b"first".as_slice() {
        Some(Base::First)
    } else if text == b"last".as_slice() {
        Some(Base::Last)
    } else if text == b"cur".as_slice() {
        Some(Base::Cur)
    } else if text == b"prev".as_slice() {
        Some(Base::Prev)
    } else if text == b"next".as_slice() {
        Some(Base::Next)
    } else {
        number(MsgNum::read(text))
    }
}
