// Lines of drafts and what they say, worked out by hand.
use crate::given::{wants, wrong_line};
use std::alloc::AllocError;
use std::test::Fail;

/// Drafts, with the number of the first wrong line.
const ROWS: &[(&[u8], u64)] = &[
    (b"", 0),
    (b"Subject: t\n\nhi\n", 0),
    (b"Subject: t\n\n#begin mixed\nhi\n", 3),
    (b"Subject: t\nMIME-Version: 1.0\n\nhi\n", 2),
    (
        b"Subject: t\n more\nX: y\ncontent-TYPE : text/plain\n\nhi\n",
        4,
    ),
    (b"Contents: t\n\n#end\n", 3),
    (b"\n#begin\n#end\n", 2),
    (b"\n#begin\n\n\n#end\n", 2),
    (b"\n#begin\n#no\n#end\n", 2),
    (b"\n#begin\nx\n#no\n#end\n", 4),
    (b"\n#begin\n#begin\nx\n#end\n", 2),
    (b"\n#begin digest \n#begin\tparallel\nx\n#end\n#end \t\n", 0),
    (b"\n#begin other\nx\n#end\n", 2),
    (b"\nx\n#beginning\n", 3),
    (b"\nx\n#end\n#no\n", 3),
    (b"\n# \n", 2),
    (b"\n##\n###\n", 0),
    (b"\n#text/plain x\n", 0),
    (b"\n#text/plain\n", 2),
    (b"\n#text/plain \t\n", 2),
    (b"\n#text/plain/x\n", 2),
    (b"\n#text x\n", 2),
    (b"\n#MultiPart/mixed x\n", 2),
    (b"\n#a/b; c=d; e=\"f g\" x\n", 0),
    (b"\n#a/b; c = d x\n", 2),
    (b"\n#a/b; c=\"d x\n", 2),
    (b"\n#a/b (c (d) e) <f> [g] {h} x\n", 0),
    (b"\n#a/b (c (d) e <f> [g] {h} x\n", 2),
    (b"\n#a/b <f x\n", 2),
    (b"\n#a/b [f x\n", 2),
    (b"\n#a/b {f x\n", 2),
    (b"\n#a/b [g] <f> x\n", 0),
];

#[test]
fn first_wrong_lines(rt: HostRuntime) -> Result<(), Fail> {
    let alloc = rt.alloc();
    for (draft, line) in ROWS {
        assert_eq!(rt; wrong_line(alloc, draft)?, *line);
    }
    Ok(())
}

#[test]
fn what_is_wanted(rt: HostRuntime) -> Result<(), Fail> {
    let alloc = rt.alloc();
    let draft =
        b"\n#forw\n#forw +in/box  1 last:2\t\n#a/b [g] <f> x\r\n#forw cur\n#a/b; c=d /y z \n";
    assert!(rt;
        wants(alloc, draft)?.as_slice()
            == b"messages;messages +in/box 1 last:2;file <f> x;messages cur;file /y z;".as_slice()
    );
    Ok(())
}

/// A draft with so many multiparts, one in the other.
fn nested(alloc: std::alloc::Global, count: usize) -> Result<Vec<u8>, AllocError> {
    let mut draft = Vec::new(alloc);
    draft.extend_from_slice(b"\n")?;
    for _i in 0..count {
        draft.extend_from_slice(b"#begin\n")?;
    }
    draft.extend_from_slice(b"x\n")?;
    for _i in 0..count {
        draft.extend_from_slice(b"#end\n")?;
    }
    Ok(draft)
}

#[test]
fn nesting_is_32_deep_at_most(rt: HostRuntime) -> Result<(), Fail> {
    let alloc = rt.alloc();
    assert_eq!(rt; wrong_line(alloc, nested(alloc, 32)?.as_slice())?, 0);
    assert_eq!(rt; wrong_line(alloc, nested(alloc, 33)?.as_slice())?, 34);
    Ok(())
}
