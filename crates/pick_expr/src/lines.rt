// The lines of a body.
ghost use Rattle.std.specs.Prelude.{◌≡◌, ◌≤◌, ◌==◌, not, length};
ghost use Rattle.std.specs.List.{list_any, prefix_len};
ghost use Rattle.pick_expr.specs.Truth.{lines_of};
ghost use Rattle.pick_expr.specs.Finishing.{is_match};
ghost use Rattle.pick_expr.specs.Lines.{without_return as text_without_return};

use crate::Pattern;

fn line_len(bytes: &[u8]) -> usize
    ensures value { result ≡ prefix_len (λ b. not (b == 10)) bytes.now }
    ensures inside { result ≤ length bytes.now }
{
    bytes.iter().take_while(|byte| **byte != b'\n').count()
}

fn without_return(line: &[u8]) -> &[u8]
    ensures { result.now ≡ text_without_return line.now }
{
    match line.split_last() {
        Some((b'\r', front)) => front,
        _ => line,
    }
}

/// Whether the pattern matches some line.
pub(crate) fn matches_line(pattern: &Pattern, body: &[u8]) -> bool
    ensures { result ≡ list_any (is_match pattern.now) (lines_of body.now) }
{
    let mut at = 0;
    while at < body.len() {
        let (_, rest) = body.split_at(at);
        let len = line_len(rest);
        if len == rest.len() {
            return pattern.matches(rest);
        }
        let (line, _) = rest.split_at(len);
        if pattern.matches(without_return(line)) {
            return true;
        }
        at += len + 1;
    }
    false
}
