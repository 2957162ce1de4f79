// The words of a text, one behind the other.
ghost use Rattle.std.specs.Prelude.{◌≡◌, [], IfOk, IfErr};
ghost use Rattle.format_compiler.specs.Formats.{Stand, StopsAt};

use crate::Word;
use crate::conditionals::Conditionals;
use crate::stop::Stop;
use crate::words::word;
use mh_base::List;
use std::alloc::Global;

/// The words of a text.
pub(crate) fn read_words<'a>(alloc: Global, text: &'a [char]) -> Result<List<Word>, Stop<'a>>
    ensures words { IfOk result (λ words. Stand words [] text.now [] []) }
    ensures wrong { IfErr result (StopsAt text.now) }
{
    let mut conditionals = Conditionals::new(alloc);
    let mut words = List::new(alloc);
    let mut rest = text;
    while !rest.is_empty() {
        match word(alloc, &conditionals, rest) {
            Ok((word, behind)) => {
                conditionals.pass(&word)?;
                words.push(word)?;
                rest = behind;
            }
            Err(stop) => return Err(stop),
        }
    }
    if conditionals.is_inside() {
        return Err(Stop::Wrong(&[]));
    }
    Ok(words)
}
