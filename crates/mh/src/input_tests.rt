// The input of a call that is made again: each try is given what the first one was.
use crate::kept_input::KeptInput;
use mh_base::Source;
use std::alloc::Global;
use std::io::Read;

/// Whether at most two bytes are read, and they are these.
fn gives<R: Read + Drop>(alloc: Global, input: &mut KeptInput<R>, piece: &[u8]) -> bool {
    match input.read(alloc, 2) {
        Ok(bytes) => bytes.as_slice() == piece,
        Err(_) => false,
    }
}

/// Whether a second try is given what a first one read of it, and then the rest.
fn is_given_again(alloc: Global) -> bool {
    let mut input = KeptInput::again_and_again(alloc, b"abcde".as_slice());
    let is_begun = gives(alloc, &mut input, b"ab") && gives(alloc, &mut input, b"cd");
    input.begin_anew();
    is_begun && gives_all(alloc, &mut input)
}

fn gives_all<R: Read + Drop>(alloc: Global, input: &mut KeptInput<R>) -> bool {
    gives(alloc, input, b"ab")
        && gives(alloc, input, b"cd")
        && gives(alloc, input, b"e")
        && gives(alloc, input, b"")
}

/// Whether each try comes to the end of an input that was read to its end.
fn is_ended_again(alloc: Global) -> bool {
    let mut input = KeptInput::again_and_again(alloc, b"abcde".as_slice());
    let is_read = gives_all(alloc, &mut input);
    input.begin_anew();
    is_read && gives_all(alloc, &mut input)
}

/// Whether an input that is read once goes on where it was.
fn goes_on(alloc: Global) -> bool {
    let mut input = KeptInput::once(alloc, b"abcd".as_slice());
    let is_begun = gives(alloc, &mut input, b"ab");
    input.begin_anew();
    is_begun && gives(alloc, &mut input, b"cd")
}

#[test]
fn each_try_reads_the_same_input(rt: HostRuntime) {
    let alloc = rt.alloc();
    assert!(rt; is_given_again(alloc));
    assert!(rt; is_ended_again(alloc));
    assert!(rt; goes_on(alloc));
}
