// The directive that makes a file a part.
ghost use Rattle.std.specs.Prelude.{◌≡◌, map, ◌==◌, IfOk, Option, option_map, ◌||◌};
ghost use Rattle.std.specs.Char.{to_ascii_lowercase};
ghost use Rattle.mh_drafts.specs.PartLines.{file_part, labelled, is_no_file, label_with, part_in};
ghost use Rattle.mh_drafts.specs.RawEnclosed.{heading_of, trail_of};

use crate::attributes::read_attributes;
use crate::directive::Directive;
use crate::trail::{Heading, Trail, read_heading, read_trail};
use crate::{AttributeList, Label, Leaf, Want};
use folder_files::FilePath;
use mail_headers::unfold;
use mh_base::Bytes;
use std::alloc::{AllocError, Global};

fn own(alloc: Global, text: Option<&[u8]>) -> Result<Option<Bytes>, AllocError>
    ensures { IfOk result (λ t. t ≡ option_map (λ i. i.now) text.entry) }
{
    match text {
        Some(text) => Ok(Some(Bytes::from_slice(alloc, text)?)),
        None => Ok(None),
    }
}

fn lower_case(alloc: Global, text: &[u8]) -> Result<Bytes, AllocError>
    ensures { IfOk result (λ t. t ≡ map to_ascii_lowercase text.now) }
{
    let mut lower = Vec::new(alloc);
    for byte in text {
        lower.push(byte.to_ascii_lowercase())?;
    }
    Ok(Bytes::from_vec(lower))
}

fn own_label(
    alloc: Global,
    heading: Heading<'_>,
    attributes: AttributeList,
    trail: Trail<'_>,
) -> Result<Label, AllocError>
    ensures { IfOk result (λ l. l ≡ label_with (heading_of heading.entry) attributes (trail_of trail.entry)) }
{
    Ok(Label {
        kind: lower_case(alloc, heading.kind)?,
        subtype: lower_case(alloc, heading.subtype)?,
        attributes,
        comment: own(alloc, trail.comment)?,
        id: own(alloc, trail.id)?,
        description: own(alloc, trail.description)?,
        disposition: own(alloc, trail.disposition)?,
    })
}

/// Whether no file is named, or a multipart is.
fn is_wrong(label: &Label, file: &Bytes) -> bool
    ensures { result ≡ is_no_file label.now file.now }
{
    file.len() == 0 || label.kind.as_slice() == b"multipart".as_slice()
}

fn file_of(label: Label, file: Bytes) -> Directive
    ensures { result ≡ labelled label file }
{
    if is_wrong(&label, &file) {
        return Directive::Wrong;
    }
    let path = FilePath {
        home: false,
        text: file,
    };
    Directive::Part(Leaf::File(label), Want::File(path))
}

fn file_line(
    alloc: Global,
    heading: Heading<'_>,
    attributes: AttributeList,
    trail: Trail<'_>,
) -> Result<Directive, AllocError>
    ensures { IfOk result (λ d. d ≡ file_part (heading_of heading.entry) attributes (trail_of trail.entry)) }
{
    let file = unfold(alloc, trail.file)?;
    Ok(file_of(own_label(alloc, heading, attributes, trail)?, file))
}

/// `type/subtype; attribute=value (comment) <id> [description] {disposition} file`.
pub(crate) fn part_line(alloc: Global, text: &[u8]) -> Result<Directive, AllocError>
    ensures { IfOk result (λ d. d ≡ part_in text.now) }
{
    let Some(heading) = read_heading(text) else {
        return Ok(Directive::Wrong);
    };
    let Some(attributes) = read_attributes(alloc, heading.rest)? else {
        return Ok(Directive::Wrong);
    };
    let Some(trail) = read_trail(attributes.rest) else {
        return Ok(Directive::Wrong);
    };
    file_line(alloc, heading, attributes.list, trail)
}
