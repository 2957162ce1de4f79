// Formats, compiled.
ghost use Rattle.std.specs.Prelude.{◌≡◌, ◌↔◌, IfOk, IfErr, IsTrue};
ghost use Rattle.std.specs.Str.{chars, IsUtf8};
ghost use Rattle.format_compiler.specs.Code.{IsCodeOf};
ghost use Rattle.format_compiler.specs.Formats.{AreRefused, BeginsNone, Denote, Denotes, DenotesNone, FrontBeginsSome, IsBadAt, IsCompiledTo, IsProgramOf, IsRefused, StopsAt};
ghost use Rattle.format_compiler.specs.FormatOf.{format_of, IsRead};
ghost use Rattle.format_compiler.specs.Grammar.{Format};
ghost use Rattle.format_compiler.specs.Texts.{characters_in, place_of, without_feed as without_feed_of};

use crate::linking::link_words;
use crate::literals::text_of;
use crate::reading::read_words;
use crate::stop::Stop;
use crate::{FormatFault, Program};
use std::alloc::{AllocError, Global};
use std::str::from_utf8;

fn without_feed(text: &[u8]) -> &[u8]
    ensures { result.now ≡ without_feed_of text.now }
{
    match text.split_last() {
        Some((b'\n', front)) => front,
        _ => text,
    }
}

/// The characters of a text up to the first byte that is no UTF-8, and whether there is no such byte.
#[derive(Drop)]
struct Decoded {
    characters: Vec<char>,
    utf8: bool,
}

fn characters_of(alloc: Global, text: &str) -> Result<Vec<char>, AllocError>
    ensures { IfOk result (λ c. c.items ≡ chars text.now) }
{
    text.chars().collect(alloc)
}

fn valid_characters(alloc: Global, bytes: &[u8]) -> Result<Vec<char>, AllocError>
    requires { IsUtf8 bytes.now }
    ensures { IfOk result (λ c. c.items ≡ chars bytes.now) }
{
    let Ok(text) = from_utf8(bytes) else {
        unreachable!();
    };
    characters_of(alloc, text)
}

fn decode(alloc: Global, text: &[u8]) -> Result<Decoded, AllocError>
    ensures characters { IfOk result (λ c. c.characters.items ≡ characters_in text.now) }
    ensures utf8 { IfOk result (λ c. IsTrue c.utf8 ↔ IsUtf8 text.now) }
{
    match from_utf8(text) {
        Ok(whole) => Ok(Decoded {
            characters: characters_of(alloc, whole)?,
            utf8: true,
        }),
        Err(fault) => {
            let (valid, _) = text.split_at(fault.valid_up_to());
            Ok(Decoded {
                characters: valid_characters(alloc, valid)?,
                utf8: false,
            })
        }
    }
}

/// The place where this is left of characters.
fn place(alloc: Global, characters: &[char], left: &[char]) -> Result<u64, AllocError>
    ensures { IfOk result (λ at. at ≡ place_of characters.now left.now) }
{
    let count = characters.len().saturating_sub(left.len());
    let (before, _) = characters.split_at(count);
    let before = text_of(alloc, before)?;
    Ok(before.as_str().len() as u64)
}

fn bad(alloc: Global, characters: &[char], left: &[char]) -> FormatFault
    ensures { IsBadAt (place_of characters.now left.now) result }
{
    match place(alloc, characters, left) {
        Ok(at) => FormatFault::Bad(at),
        Err(_) => FormatFault::Memory,
    }
}

/// The program of characters that are a format.
fn program<'a>(alloc: Global, characters: &'a [char]) -> Result<Program, Stop<'a>>
    ensures whole { IfOk result (IsProgramOf characters.now) }
    ensures alone { (f : Format) → Denote characters.now f → IfOk result (λ p. IsCodeOf p f) }
    ensures wrong { IfErr result (StopsAt characters.now) }
{
    let words = read_words(alloc, characters)?;
    let instructions = link_words(alloc, words)?;
    Ok(Program::new(instructions))
}

/// The same, of characters behind which perhaps something stands that is no UTF-8.
fn compile_characters(
    alloc: Global,
    utf8: bool,
    characters: &[char],
) -> Result<Program, FormatFault>
    ensures utf8 { IfOk result (λ _. IsTrue utf8) }
    ensures whole { IfOk result (IsProgramOf characters.now) }
    ensures alone { (f : Format) → Denote characters.now f → IfOk result (λ p. IsCodeOf p f) }
    ensures refused { IfErr result (AreRefused (IsTrue utf8) characters.now) }
{
    match program(alloc, characters) {
        Ok(program) => {
            if utf8 {
                Ok(program)
            } else {
                Err(bad(alloc, characters, &[]))
            }
        }
        Err(Stop::Wrong(left)) => Err(bad(alloc, characters, left)),
        Err(Stop::Memory) => Err(FormatFault::Memory),
    }
}

/// Compiles the format that a text denotes.
pub fn compile(alloc: Global, text: &[u8]) -> Result<Program, FormatFault>
    ensures whole { IfOk result (IsCompiledTo text.now) }
    ensures alone { (f : Format) → Denotes text.now f → IfOk result (λ p. IsCodeOf p f) }
    ensures refused { IfErr result (IsRefused text.now) }
    ensures none { IfErr result (DenotesNone text.now) }
    ensures beyond { IfErr result (BeginsNone text.now) }
    ensures front { IfErr result (FrontBeginsSome text.now) }
    ensures read { IsRead (format_of text.now) result }
{
    let text = decode(alloc, without_feed(text))?;
    compile_characters(alloc, text.utf8, text.characters.as_slice())
}
