// The names of components, as they are written.
ghost use Rattle.std.specs.Prelude.{◌≡◌, ◌≤◌, ◌<◌, length, IfOk};
ghost use Rattle.std.specs.List.{prefix_len};
ghost use Rattle.format_compiler.specs.Components.{component_in, is_name_character as is_in_name};
ghost use Rattle.format_compiler.specs.Outcomes.{Gives};

use crate::stop::Stop;

fn is_name_character(c: char) -> bool
    ensures { result ≡ is_in_name c }
{
    '!' <= c && c <= '~' && c != ':' && c != '}'
}

fn name_len(text: &[char]) -> usize
    ensures value { result ≡ prefix_len is_in_name text.now }
    ensures inside { result ≤ length text.now }
{
    text.iter().take_while(|c| is_name_character(**c)).count()
}

/// The name of the component behind an opening brace, and what stands behind its closing one.
pub(crate) fn component<'a>(
    whole: &'a [char],
    text: &'a [char],
) -> Result<(&'a [char], &'a [char]), Stop<'a>>
    ensures given { Gives (λ x. (x.0.now, x.1.now)) result (component_in whole.now text.now) }
    ensures shorter { IfOk result (λ x. length x.1.now < length text.now) }
{
    let (name, from_end) = text.split_at(name_len(text));
    match (name, from_end.split_first()) {
        (_, None) => Err(Stop::Wrong(&[])),
        ([_, ..], Some(('}', behind))) => Ok((name, behind)),
        _ => Err(Stop::Wrong(whole)),
    }
}
