// The parts of an address.
ghost use Rattle.std.specs.Prelude.{◌≡◌, ◌≤◌, not, length, drop, filter, IfOk};
ghost use Rattle.std.specs.List.{suffix_len, position_or_len, before_first, list_any};
ghost use Rattle.mail_text.specs.Addresses.{is_comma, is_bracket, opens_comment, closes_comment, trimmed, is_of_name, is_plain, closes_bracket, characters_in, in_brackets, comment_in, note_of, pers_of, addr_of, is_at, mbox_in, host_in};
ghost use Rattle.mh_base.specs.Characters.{is_blank as is_a_blank};

use crate::characters::{blank_len, is_blank, text_of};
use crate::marks::Mark;
use mh_base::Text;
use std::alloc::{AllocError, Global};

fn back_blank_len(text: &[char]) -> usize
    ensures value { result ≡ suffix_len is_a_blank text.now }
    ensures inside { result ≤ length text.now }
{
    text.iter().rev().take_while(|c| is_blank(**c)).count()
}

/// Without the blanks at its ends.
fn trim(text: &[char]) -> &[char]
    ensures { result.now ≡ trimmed text.now }
{
    let (_, front) = text.split_at(blank_len(text));
    let (inner, _) = front.split_at(front.len() - back_blank_len(front));
    inner
}

fn behind_one(marks: &[Mark]) -> &[Mark]
    ensures { result.now ≡ drop 1 marks.now }
{
    match marks.split_first() {
        Some((_, behind)) => behind,
        None => marks,
    }
}

fn comma_place(marks: &[Mark]) -> usize
    ensures value { result ≡ position_or_len is_comma marks.now }
    ensures inside { result ≤ length marks.now }
{
    marks.iter().take_while(|m| !m.is_comma()).count()
}

fn bracket_place(marks: &[Mark]) -> usize
    ensures value { result ≡ position_or_len is_bracket marks.now }
    ensures inside { result ≤ length marks.now }
{
    marks.iter().take_while(|m| !m.is_bracket()).count()
}

fn comment_place(marks: &[Mark]) -> usize
    ensures value { result ≡ position_or_len opens_comment marks.now }
    ensures inside { result ≤ length marks.now }
{
    marks.iter().take_while(|m| !m.opens_comment()).count()
}

fn comment_end(marks: &[Mark]) -> usize
    ensures value { result ≡ position_or_len closes_comment marks.now }
    ensures inside { result ≤ length marks.now }
{
    marks.iter().take_while(|m| !m.closes_comment()).count()
}

fn bracket_end(marks: &[Mark]) -> usize
    ensures value { result ≡ position_or_len closes_bracket marks.now }
    ensures inside { result ≤ length marks.now }
{
    marks.iter().take_while(|m| m.c != '>').count()
}

/// What stands before the comma that ends the first address.
pub(crate) fn first_address(marks: &[Mark]) -> &[Mark]
    ensures { result.now ≡ before_first is_comma marks.now }
{
    let (address, _) = marks.split_at(comma_place(marks));
    address
}

fn trimmed_text(alloc: Global, characters: &[char]) -> Result<Text, AllocError>
    ensures { IfOk result (λ text. text ≡ trimmed characters.now) }
{
    text_of(alloc, trim(characters))
}

fn characters_of(alloc: Global, marks: &[Mark]) -> Result<Vec<char>, AllocError>
    ensures { IfOk result (λ cs. cs.items ≡ characters_in marks.now) }
{
    marks.iter().map(|m| m.c).collect(alloc)
}

fn first_comment(marks: &[Mark]) -> &[Mark]
    ensures { result.now ≡ comment_in marks.now }
{
    let (_, from_comment) = marks.split_at(comment_place(marks));
    let behind = behind_one(from_comment);
    let (inside, _) = behind.split_at(comment_end(behind));
    inside
}

/// The inside of the first comment.
pub(crate) fn note(alloc: Global, marks: &[Mark]) -> Result<Text, AllocError>
    ensures { IfOk result (λ text. text ≡ note_of marks.now) }
{
    let inside = characters_of(alloc, first_comment(marks))?;
    trimmed_text(alloc, inside.as_slice())
}

fn has_bracket(marks: &[Mark]) -> bool
    ensures { result ≡ list_any is_bracket marks.now }
{
    marks.iter().any(|m| m.is_bracket())
}

/// The characters that are of no comment and no quote marks.
fn name_characters(alloc: Global, marks: &[Mark]) -> Result<Vec<char>, AllocError>
    ensures { IfOk result (λ cs. cs.items ≡ characters_in (filter is_of_name marks.now)) }
{
    marks
        .iter()
        .filter(|m| !(m.is_of_comment() || m.is_quote()))
        .map(|m| m.c)
        .collect(alloc)
}

/// The characters that are of no comment.
fn plain_characters(alloc: Global, marks: &[Mark]) -> Result<Vec<char>, AllocError>
    ensures { IfOk result (λ cs. cs.items ≡ characters_in (filter is_plain marks.now)) }
{
    marks
        .iter()
        .filter(|m| !m.is_of_comment())
        .map(|m| m.c)
        .collect(alloc)
}

/// What stands before the angle bracket, without comments and quote marks.
pub(crate) fn pers(alloc: Global, marks: &[Mark]) -> Result<Text, AllocError>
    ensures { IfOk result (λ text. text ≡ pers_of marks.now) }
{
    if has_bracket(marks) {
        let (name, _) = marks.split_at(bracket_place(marks));
        let name = name_characters(alloc, name)?;
        trimmed_text(alloc, name.as_slice())
    } else {
        Ok(Text::new(alloc))
    }
}

fn bracketed(marks: &[Mark]) -> &[Mark]
    ensures { result.now ≡ in_brackets marks.now }
{
    let (_, from_bracket) = marks.split_at(bracket_place(marks));
    let behind = behind_one(from_bracket);
    let (inside, _) = behind.split_at(bracket_end(behind));
    inside
}

/// The address itself: what stands in brackets, or where there are none, all without comments.
pub(crate) fn address(alloc: Global, marks: &[Mark]) -> Result<Vec<char>, AllocError>
    ensures { IfOk result (λ cs. cs.items ≡ addr_of marks.now) }
{
    if has_bracket(marks) {
        characters_of(alloc, bracketed(marks))
    } else {
        let plain = plain_characters(alloc, marks)?;
        trim(plain.as_slice()).to_vec(alloc)
    }
}

fn has_at(address: &[char]) -> bool
    ensures { result ≡ list_any is_at address.now }
{
    address.iter().any(|c| *c == '@')
}

/// How many characters stand behind the last @.
fn host_len(address: &[char]) -> usize
    ensures value { result ≡ suffix_len (λ c. not (is_at c)) address.now }
    ensures inside { result ≤ length address.now }
{
    address.iter().rev().take_while(|c| **c != '@').count()
}

/// What stands before the last @ and behind it.
pub(crate) fn cut(address: &[char]) -> (&[char], &[char])
    ensures mbox { result.0.now ≡ mbox_in address.now }
    ensures host { result.1.now ≡ host_in address.now }
{
    if !has_at(address) {
        return address.split_at(address.len());
    }
    let (front, host) = address.split_at(address.len() - host_len(address));
    let (mbox, _) = front.split_at(front.len().saturating_sub(1));
    (mbox, host)
}
