// The lines that annotate a message.
ghost use Rattle.std.specs.Prelude.{◌≡◌, ◌++◌, IfOk, IfSome, OnOk, option_map};
ghost use Rattle.mail_dates.specs.Clocks.{IsMailDate};
ghost use Rattle.annotation_lines.specs.Lines.{annotation_lines as annotation_lines_of, date_line, text_line, line_of};

use mail_dates::MailDate;
use mh_base::Bytes;
use std::alloc::{AllocError, Global};

/// Adds a line: the field's name, a colon, a space and the text.
fn push_line(lines: &mut Bytes, component: &[u8], text: &[u8]) -> Result<(), AllocError>
    ensures { OnOk result (lines.new ≡ lines.old ++ line_of component.now text.now) }
{
    lines.extend(component)?;
    lines.extend(b": ")?;
    lines.extend(text)?;
    lines.extend(b"\n")
}

/// Adds the line with the date, where there is one.
fn push_date(
    alloc: Global,
    lines: &mut Bytes,
    component: &[u8],
    date: Option<MailDate>,
) -> Result<(), AllocError>
    requires { IfSome date IsMailDate }
    ensures { OnOk result (lines.new ≡ lines.old ++ date_line component.now date) }
{
    match date {
        Some(date) => push_line(lines, component, date.tws(alloc)?.as_str().as_bytes()),
        None => Ok(()),
    }
}

/// Adds the line with the text, where there is one.
fn push_text(lines: &mut Bytes, component: &[u8], text: Option<&[u8]>) -> Result<(), AllocError>
    ensures { OnOk result (lines.new ≡ lines.old ++ text_line component.now (option_map (λ t. t.now) text.entry)) }
{
    match text {
        Some(text) => push_line(lines, component, text),
        None => Ok(()),
    }
}

/// The lines that annotate a message with a field of this name: one with the date, where there is one, as in
/// `Tue, 02 Jun 2026 10:00:00 +0000`, and then one with the text, where there is one.
pub fn annotation_lines(
    alloc: Global,
    component: &[u8],
    date: Option<MailDate>,
    text: Option<&[u8]>,
) -> Result<Bytes, AllocError>
    requires { IfSome date IsMailDate }
    ensures { IfOk result
        (λ lines. lines ≡ annotation_lines_of component.now date (option_map (λ t. t.now) text.entry)) }
{
    let mut lines = Bytes::new(alloc);
    push_date(alloc, &mut lines, component, date)?;
    push_text(&mut lines, component, text)?;
    Ok(lines)
}
