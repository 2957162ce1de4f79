// Drafts, with what is given for their wants.
use mh_base::{Bytes, List};
use mh_drafts::{Draft, DraftFault, Want};
use mhbuild_compose::{Given, GivenList, compose};
use std::alloc::{AllocError, Global};

/// The number of the first wrong line, or 0.
pub(crate) fn wrong_line(alloc: Global, draft: &[u8]) -> Result<u64, AllocError> {
    match Draft::read(alloc, draft) {
        Ok(_) => Ok(0),
        Err(DraftFault::Bad(line)) => Ok(line),
        Err(DraftFault::Memory) => Err(AllocError),
    }
}

fn push_want(shown: &mut Bytes, want: &Want) -> Result<(), AllocError> {
    match want {
        Want::File(path) => {
            shown.extend(if path.home { b"home " } else { b"file " })?;
            shown.extend(path.text.as_slice())?;
        }
        Want::Messages { folder, specs } => {
            shown.extend(b"messages")?;
            if let Some(folder) = folder {
                shown.extend(b" ")?;
                shown.extend(folder.as_str().as_bytes())?;
            }
            for spec in specs.as_slice() {
                shown.extend(b" ")?;
                shown.extend(spec.as_str().as_bytes())?;
            }
        }
    }
    shown.extend(b";")
}

/// What a draft wants, or that a line of it is wrong.
pub(crate) fn wants(alloc: Global, draft: &[u8]) -> Result<Bytes, AllocError> {
    let mut shown = Bytes::new(alloc);
    match Draft::read(alloc, draft) {
        Ok(draft) => {
            for want in draft.wants().as_slice() {
                push_want(&mut shown, want)?;
            }
        }
        Err(DraftFault::Bad(_)) => shown.extend(b"wrong")?,
        Err(DraftFault::Memory) => return Err(AllocError),
    }
    Ok(shown)
}

pub(crate) fn file(alloc: Global, bytes: &[u8]) -> Result<Given, AllocError> {
    Ok(Given::File(Bytes::from_slice(alloc, bytes)?))
}

pub(crate) fn messages(alloc: Global, texts: &[&[u8]]) -> Result<Given, AllocError> {
    let mut list = List::new(alloc);
    for text in texts {
        list.push(Bytes::from_slice(alloc, text)?)?;
    }
    Ok(Given::Messages(list))
}

/// The message of run 26 that a draft becomes, or that a line of it is wrong.
pub(crate) fn message(
    alloc: Global,
    draft: &[u8],
    givens: &GivenList,
) -> Result<Bytes, AllocError> {
    match Draft::read(alloc, draft) {
        Ok(draft) => compose(alloc, &draft, givens, 26),
        Err(DraftFault::Bad(_)) => Bytes::from_slice(alloc, b"wrong"),
        Err(DraftFault::Memory) => Err(AllocError),
    }
}
