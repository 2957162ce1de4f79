// Real directories where a system's call by itself would do something else than the step says.
use crate::disk::{At, Deed, ONE, Row, TWO, wrong};
use std::fs::File;
use std::test::Fail;

const ODD_NAMES: &[Row] = &[
    // A backup name that leads to the message's own file: the message leaves its number all the same.
    (ONE, At::Inbox, Deed::Make, true),
    (ONE, At::Inbox, Deed::Create(b"1"), true),
    (ONE, At::Inbox, Deed::Link(b"1", b",1"), true),
    (ONE, At::Inbox, Deed::Rename(b"1", b",1"), true),
    (ONE, At::Inbox, Deed::Has(b",1"), true),
    (ONE, At::Inbox, Deed::Rename(b",1", b",1"), true),
    (ONE, At::Inbox, Deed::Has(b",1"), true),
    // A subfolder whose name is a number: no message, and no number for one.
    (ONE, At::Seven, Deed::Make, true),
    (ONE, At::Inbox, Deed::Has(b",1"), true),
    (ONE, At::Inbox, Deed::Taken(b",1", b"7"), true),
    // The same folder by paths with more slashes, and its lock twice.
    (ONE, At::OddInbox, Deed::Make, false),
    (ONE, At::Inbox, Deed::Lock, true),
    (ONE, At::Inbox, Deed::Lock, true),
    (TWO, At::OddInbox, Deed::Lock, false),
];

#[test]
fn odd_names(rt: HostRuntime) -> Result<(), Fail> {
    assert_eq!(rt; wrong(&rt, ODD_NAMES)?, None);
    Ok(())
}

/// A device would be read for ever.
const NO_FILES: &[Row] = &[
    (ONE, At::Home, Deed::Fails(b"/dev/zero"), true),
    (ONE, At::Home, Deed::Fails(b""), true),
];

#[test]
fn devices_and_directories(rt: HostRuntime) -> Result<(), Fail> {
    assert_eq!(rt; wrong(&rt, NO_FILES)?, None);
    Ok(())
}

const MADE_ONCE: &[Row] = &[
    (ONE, At::Inbox, Deed::Make, true),
    (ONE, At::Inbox, Deed::Make, false),
];

const UNANSWERED: &[Row] = &[(ONE, At::System, Deed::MakeFails, true)];

/// Whether a system's own directory can be synced.
fn syncs(rt: &HostRuntime, path: &str) -> Result<bool, Fail> {
    Ok(File::open(rt, path)?.sync_all().is_ok())
}

/// A folder that was there is answered for only once the directory above it is safe.
#[test]
fn made_folders_are_safe(rt: HostRuntime) -> Result<(), Fail> {
    assert_eq!(rt; wrong(&rt, MADE_ONCE)?, None);
    assert!(rt; wrong(&rt, UNANSWERED)?.is_none() || syncs(&rt, "/proc/self")?);
    Ok(())
}
