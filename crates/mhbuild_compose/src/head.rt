// The header lines of a part.
ghost use Rattle.std.specs.Prelude.{◌≡◌, ◌++◌, OnOk, ◌&&◌, ◌||◌, ◌==◌};
ghost use Rattle.std.specs.List.{list_any};
ghost use Rattle.mail_headers.specs.Fields.{same_name as are_same};
ghost use Rattle.mhbuild_compose.specs.Heads.{attribute_text, attributes_text, bracketed, charset_text, is_charset, needs_charset as wants_charset, encoding_line, head_of, name_text, protected_text, protected_byte, type_text};

use crate::encoding::Encoding;
use mh_base::Bytes;
use mh_drafts::{Attribute, Label};
use std::alloc::AllocError;

fn put_protected_byte(out: &mut Bytes, byte: u8) -> Result<(), AllocError>
    ensures { OnOk result (out.new ≡ out.old ++ protected_byte byte) }
{
    if byte == b'"' || byte == b'\\' {
        out.extend(&[b'\\', byte])
    } else {
        out.extend(&[byte])
    }
}

/// Protects quote marks and backslashes.
fn put_protected(out: &mut Bytes, text: &[u8]) -> Result<(), AllocError>
    ensures { OnOk result (out.new ≡ out.old ++ protected_text text.now) }
{
    for byte in text {
        put_protected_byte(out, *byte)?;
    }
    Ok(())
}

/// `; name="value"`.
fn put_attribute(out: &mut Bytes, attribute: &Attribute) -> Result<(), AllocError>
    ensures { OnOk result (out.new ≡ out.old ++ attribute_text attribute.now) }
{
    out.extend(b"; ")?;
    out.extend(attribute.name.as_slice())?;
    out.extend(b"=\"")?;
    put_protected(out, attribute.value.as_slice())?;
    out.extend(b"\"")
}

fn put_attributes(out: &mut Bytes, attributes: &[Attribute]) -> Result<(), AllocError>
    ensures { OnOk result (out.new ≡ out.old ++ attributes_text attributes.now) }
{
    for attribute in attributes {
        put_attribute(out, attribute)?;
    }
    Ok(())
}

fn is_named(name: &[u8], word: &[u8]) -> bool
    ensures { result ≡ are_same name.now word.now }
{
    name.eq_ignore_ascii_case(word)
}

fn has_charset(attributes: &[Attribute]) -> bool
    ensures { result ≡ list_any is_charset attributes.now }
{
    attributes.iter().any(|attribute| is_named(attribute.name.as_slice(), b"charset"))
}

fn needs_charset(label: &Label) -> bool
    ensures { result ≡ wants_charset label.now }
{
    label.kind.as_slice() == b"text".as_slice() && !has_charset(label.attributes.as_slice())
}

/// The character set of a text that names none.
fn put_charset(out: &mut Bytes, label: &Label, high: bool) -> Result<(), AllocError>
    ensures { OnOk result (out.new ≡ out.old ++ charset_text label.now high) }
{
    if !needs_charset(label) {
        out.extend(b"")
    } else if high {
        out.extend(b"; charset=\"utf-8\"")
    } else {
        out.extend(b"; charset=\"us-ascii\"")
    }
}

/// What is there between these texts.
fn put_between(
    out: &mut Bytes,
    front: &[u8],
    inside: &Option<Bytes>,
    back: &[u8],
) -> Result<(), AllocError>
    ensures { OnOk result (out.new ≡ out.old ++ bracketed front.now inside.now back.now) }
{
    match inside {
        Some(inside) => {
            out.extend(front)?;
            out.extend(inside.as_slice())?;
            out.extend(back)
        }
        None => out.extend(b""),
    }
}

/// The field's name, the type and the subtype.
#[tactic(auto, unfolding(crate::specs::Heads::name_text))]
fn put_name(out: &mut Bytes, label: &Label) -> Result<(), AllocError>
    ensures { OnOk result (out.new ≡ out.old ++ name_text label.now) }
{
    out.extend(b"Content-Type: ")?;
    out.extend(label.kind.as_slice())?;
    out.extend(b"/")?;
    out.extend(label.subtype.as_slice())
}

/// The line that names the type, with its parameters and the comment.
#[tactic(auto, unfolding(crate::specs::Heads::type_text))]
fn put_type(out: &mut Bytes, label: &Label, high: bool) -> Result<(), AllocError>
    ensures { OnOk result (out.new ≡ out.old ++ type_text label.now high) }
{
    put_name(out, label)?;
    put_attributes(out, label.attributes.as_slice())?;
    put_charset(out, label, high)?;
    put_between(out, b" (", &label.comment, b")")?;
    out.extend(b"\n")
}

/// The line that names the encoding, where it isn't 7bit.
pub(crate) fn put_encoding(out: &mut Bytes, encoding: Encoding) -> Result<(), AllocError>
    ensures { OnOk result (out.new ≡ out.old ++ encoding_line encoding) }
{
    match encoding {
        Encoding::SevenBit => out.extend(b""),
        Encoding::EightBit => out.extend(b"Content-Transfer-Encoding: 8bit\n"),
        Encoding::QuotedPrintable => {
            out.extend(b"Content-Transfer-Encoding: quoted-printable\n")
        }
        Encoding::Base64 => out.extend(b"Content-Transfer-Encoding: base64\n"),
    }
}

/// The header lines of a part.
pub(crate) fn put_head(
    out: &mut Bytes,
    label: &Label,
    high: bool,
    encoding: Encoding,
) -> Result<(), AllocError>
    ensures { OnOk result (out.new ≡ out.old ++ head_of label.now high encoding) }
{
    put_type(out, label, high)?;
    put_between(out, b"Content-ID: <", &label.id, b">\n")?;
    put_between(out, b"Content-Description: ", &label.description, b"\n")?;
    put_between(out, b"Content-Disposition: ", &label.disposition, b"\n")?;
    put_encoding(out, encoding)
}
