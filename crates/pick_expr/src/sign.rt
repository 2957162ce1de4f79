// What the words of a command line are to an expression.
ghost use Rattle.std.specs.Prelude.{◌≡◌, ℤ, IfOk, Some};
ghost use Rattle.std.specs.Str.{encode_utf8_all};
ghost use Rattle.mail_dates.specs.Clocks.{IsSetting};
ghost use Rattle.mail_dates.specs.Picking.{IsToday, picked};
ghost use Rattle.pick_expr.specs.Signs.{after_sign, before_sign, day_of, field_sign, name_sign, search_sign, sign_of, switch_sign};

use crate::{Lexeme, Pattern, PatternFault, PickSwitch, Test};
use mail_dates::pick_date;
use mh_base::{Bytes, Duplicate, Text};
use mh_words::Item;
use std::alloc::{AllocError, Global};

/// What a word is to an expression.
#[derive(Drop)]
pub enum Sign {
    /// No part of it.
    Aside,
    /// The name of the field for the dates of the tests that follow.
    Field(Bytes),
    /// A word of it.
    Word(Lexeme),
    /// A test whose pattern is wrong.
    BadPattern,
    /// A test whose date can't be read.
    BadDate,
}

/// The moment, and by how many minutes the clock is ahead by which dates are named.
#[derive(Drop)]
pub(crate) struct Setting {
    pub moment: i64,
    pub offset_minutes: i32,
}

fn test_sign(test: Test) -> Sign
    ensures { result ≡ Sign.Word (Lexeme.Test test) }
{
    Sign::Word(Lexeme::Test(test))
}

fn component_test(alloc: Global, name: &[u8], value: &Text) -> Result<Sign, AllocError>
    ensures { IfOk result (λ s. s ≡ field_sign name.now (Some value.now)) }
{
    match Pattern::read(alloc, value) {
        Ok(pattern) => {
            let name = Bytes::from_slice(alloc, name)?;
            Ok(test_sign(Test::Field { name, pattern }))
        }
        Err(PatternFault::Bad) => Ok(Sign::BadPattern),
        Err(PatternFault::Memory) => Err(AllocError),
    }
}

fn field_test(alloc: Global, name: &[u8], value: &Option<Text>) -> Result<Sign, AllocError>
    ensures { IfOk result (λ s. s ≡ field_sign name.now value.now) }
{
    match value {
        Some(value) => component_test(alloc, name, value),
        None => Ok(Sign::BadPattern),
    }
}

fn search_test(alloc: Global, value: &Option<Text>) -> Result<Sign, AllocError>
    ensures { IfOk result (λ s. s ≡ search_sign value.now) }
{
    let Some(value) = value else {
        return Ok(Sign::BadPattern);
    };
    match Pattern::read(alloc, value) {
        Ok(pattern) => Ok(test_sign(Test::Search(pattern))),
        Err(PatternFault::Bad) => Ok(Sign::BadPattern),
        Err(PatternFault::Memory) => Err(AllocError),
    }
}

/// The moment that a text names.
fn clock_in(text: &Text, setting: &Setting) -> Option<i64>
    requires { IsSetting setting.now.moment setting.now.offset_minutes }
    ensures { (today : ℤ) → IsToday setting.now.moment setting.now.offset_minutes today
        → result ≡ picked today setting.now.offset_minutes (encode_utf8_all text.now) }
{
    match pick_date(text, setting.moment, setting.offset_minutes) {
        Ok(clock) => Some(clock),
        Err(_) => None,
    }
}

fn before_test(
    alloc: Global,
    setting: &Setting,
    field: &Bytes,
    value: &Option<Text>,
) -> Result<Sign, AllocError>
    requires { IsSetting setting.now.moment setting.now.offset_minutes }
    ensures { (today : ℤ) → IsToday setting.now.moment setting.now.offset_minutes today
        → IfOk result (λ s. s ≡ before_sign (day_of today setting.now.offset_minutes) field.now value.now) }
{
    let Some(value) = value else {
        return Ok(Sign::BadDate);
    };
    match clock_in(value, setting) {
        Some(clock) => {
            let field = field.duplicate(alloc)?;
            Ok(test_sign(Test::Before { field, clock }))
        }
        None => Ok(Sign::BadDate),
    }
}

fn after_test(
    alloc: Global,
    setting: &Setting,
    field: &Bytes,
    value: &Option<Text>,
) -> Result<Sign, AllocError>
    requires { IsSetting setting.now.moment setting.now.offset_minutes }
    ensures { (today : ℤ) → IsToday setting.now.moment setting.now.offset_minutes today
        → IfOk result (λ s. s ≡ after_sign (day_of today setting.now.offset_minutes) field.now value.now) }
{
    let Some(value) = value else {
        return Ok(Sign::BadDate);
    };
    match clock_in(value, setting) {
        Some(clock) => {
            let field = field.duplicate(alloc)?;
            Ok(test_sign(Test::After { field, clock }))
        }
        None => Ok(Sign::BadDate),
    }
}

fn field_name(alloc: Global, value: &Option<Text>) -> Result<Sign, AllocError>
    ensures { IfOk result (λ s. s ≡ name_sign value.now) }
{
    match value {
        Some(name) => Ok(Sign::Field(Bytes::from_slice(alloc, name.as_str().as_bytes())?)),
        None => Ok(Sign::Aside),
    }
}

fn switch_sign_of(
    alloc: Global,
    setting: &Setting,
    field: &Bytes,
    switch: PickSwitch,
    value: &Option<Text>,
) -> Result<Sign, AllocError>
    requires { IsSetting setting.now.moment setting.now.offset_minutes }
    ensures { (today : ℤ) → IsToday setting.now.moment setting.now.offset_minutes today
        → IfOk result (λ s. s ≡ switch_sign (day_of today setting.now.offset_minutes) field.now switch value.now) }
{
    match switch {
        PickSwitch::And => Ok(Sign::Word(Lexeme::And)),
        PickSwitch::Or => Ok(Sign::Word(Lexeme::Or)),
        PickSwitch::Not => Ok(Sign::Word(Lexeme::Not)),
        PickSwitch::Lbrace => Ok(Sign::Word(Lexeme::Open)),
        PickSwitch::Rbrace => Ok(Sign::Word(Lexeme::Close)),
        PickSwitch::From => field_test(alloc, b"from", value),
        PickSwitch::To => field_test(alloc, b"to", value),
        PickSwitch::Cc => field_test(alloc, b"cc", value),
        PickSwitch::Subject => field_test(alloc, b"subject", value),
        PickSwitch::Date => field_test(alloc, b"date", value),
        PickSwitch::Search => search_test(alloc, value),
        PickSwitch::Before => before_test(alloc, setting, field, value),
        PickSwitch::After => after_test(alloc, setting, field, value),
        PickSwitch::Datefield => field_name(alloc, value),
        PickSwitch::Aside => Ok(Sign::Aside),
    }
}

/// What an item is, where this is the field for dates.
pub(crate) fn read_sign(
    alloc: Global,
    setting: &Setting,
    field: &Bytes,
    item: &Item,
) -> Result<Sign, AllocError>
    requires { IsSetting setting.now.moment setting.now.offset_minutes }
    ensures { (today : ℤ) → IsToday setting.now.moment setting.now.offset_minutes today
        → IfOk result (λ s. s ≡ sign_of (day_of today setting.now.offset_minutes) field.now item.now) }
{
    match item {
        Item::Folder { .. } | Item::Message { .. } => Ok(Sign::Aside),
        Item::Switch { index, value, .. } => {
            switch_sign_of(alloc, setting, field, PickSwitch::at(*index), value)
        }
        Item::Component { name, value, .. } => {
            component_test(alloc, name.as_str().as_bytes(), value)
        }
    }
}
