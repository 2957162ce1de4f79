// Messages that drafts become, worked out by hand.
use crate::given::{file, message, messages};
use mh_base::List;
use std::test::Fail;

#[test]
fn texts(rt: HostRuntime) -> Result<(), Fail> {
    let alloc = rt.alloc();
    let none = List::new(alloc);
    assert!(rt;
        message(alloc, b"Subject: t\n\nh\xc3\xa9\n", &none)?.as_slice()
            == b"Subject: t\nMIME-Version: 1.0\nContent-Type: text/plain; charset=\"utf-8\"\nContent-Transfer-Encoding: quoted-printable\n\nh=C3=A9\n".as_slice()
    );
    assert!(rt;
        message(alloc, b"Subject: t\n\n##x\n", &none)?.as_slice()
            == b"Subject: t\nMIME-Version: 1.0\nContent-Type: text/plain; charset=\"us-ascii\"\n\n#x\n".as_slice()
    );
    assert!(rt;
        message(alloc, b"Subject: t\n folded\nTo: a", &none)?.as_slice()
            == b"Subject: t\n folded\nTo: a\nMIME-Version: 1.0\nContent-Type: text/plain; charset=\"us-ascii\"\n\n".as_slice()
    );
    assert!(rt;
        message(alloc, b"\na\r\n\nb", &none)?.as_slice()
            == b"MIME-Version: 1.0\nContent-Type: text/plain; charset=\"us-ascii\"\nContent-Transfer-Encoding: quoted-printable\n\na=0D\n\nb".as_slice()
    );
    Ok(())
}

#[test]
fn a_file(rt: HostRuntime) -> Result<(), Fail> {
    let alloc = rt.alloc();
    let draft = b"A: b\n\n#Image/GIF; name=\"a\\\"b\" (c (d)) <i@x> [desc] {inline} /tmp/x y \n";
    let mut givens = List::new(alloc);
    givens.push(file(alloc, b"\x00\xff")?)?;
    assert!(rt;
        message(alloc, draft, &givens)?.as_slice()
            == b"A: b\nMIME-Version: 1.0\nContent-Type: image/gif; name=\"a\\\"b\" (c (d))\nContent-ID: <i@x>\nContent-Description: desc\nContent-Disposition: inline\nContent-Transfer-Encoding: base64\n\nAP8=\n".as_slice()
    );
    Ok(())
}

#[test]
fn messages_and_a_text(rt: HostRuntime) -> Result<(), Fail> {
    let alloc = rt.alloc();
    let mut givens = List::new(alloc);
    givens.push(messages(
        alloc,
        &[b"A: 1\n\nx\n".as_slice(), b"A: 2\n\n\xe9".as_slice()],
    )?)?;
    assert!(rt;
        message(alloc, b"S: t\n\nhi\n#forw 1 2\n", &givens)?.as_slice()
            == b"S: t\nMIME-Version: 1.0\nContent-Type: multipart/mixed; boundary=\"mh-0000000000000000000000000000001a-0000000000000000\"\nContent-Transfer-Encoding: 8bit\n\n--mh-0000000000000000000000000000001a-0000000000000000\nContent-Type: text/plain; charset=\"us-ascii\"\n\nhi\n\n--mh-0000000000000000000000000000001a-0000000000000000\nContent-Type: multipart/digest; boundary=\"mh-0000000000000000000000000000001a-0000000000000001\"\nContent-Transfer-Encoding: 8bit\n\n--mh-0000000000000000000000000000001a-0000000000000001\nContent-Type: message/rfc822\n\nA: 1\n\nx\n\n--mh-0000000000000000000000000000001a-0000000000000001\nContent-Type: message/rfc822\nContent-Transfer-Encoding: 8bit\n\nA: 2\n\n\xe9\n--mh-0000000000000000000000000000001a-0000000000000001--\n\n--mh-0000000000000000000000000000001a-0000000000000000--\n".as_slice()
    );
    Ok(())
}

#[test]
fn boundaries_of_the_text_are_passed_over(rt: HostRuntime) -> Result<(), Fail> {
    let alloc = rt.alloc();
    let none = List::new(alloc);
    assert!(rt;
        message(
            alloc,
            b"\n#begin alternative\n--mh-0000000000000000000000000000001a-0000000000000000x\n#begin parallel\n --mh-0000000000000000000000000000001a-0000000000000002\n#end\n#end\n",
            &none
        )?
        .as_slice()
            == b"MIME-Version: 1.0\nContent-Type: multipart/alternative; boundary=\"mh-0000000000000000000000000000001a-0000000000000001\"\n\n--mh-0000000000000000000000000000001a-0000000000000001\nContent-Type: text/plain; charset=\"us-ascii\"\n\n--mh-0000000000000000000000000000001a-0000000000000000x\n\n--mh-0000000000000000000000000000001a-0000000000000001\nContent-Type: multipart/parallel; boundary=\"mh-0000000000000000000000000000001a-0000000000000002\"\n\n--mh-0000000000000000000000000000001a-0000000000000002\nContent-Type: text/plain; charset=\"us-ascii\"\n\n --mh-0000000000000000000000000000001a-0000000000000002\n\n--mh-0000000000000000000000000000001a-0000000000000002--\n\n--mh-0000000000000000000000000000001a-0000000000000001--\n".as_slice()
    );
    Ok(())
}
