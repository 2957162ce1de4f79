// Expressions, as they are read.
ghost use Rattle.std.specs.Prelude.{◌≡◌, ℕ, ℤ, true, false, List as ListOf, [], ◌∷◌, ◌++◌, Some, None, IfOk, IfErr, codes};
ghost use Rattle.mail_dates.specs.Clocks.{IsSetting};
ghost use Rattle.mail_dates.specs.Picking.{IsToday};
ghost use Rattle.mh_words.specs.declared.item.Item.{Item as ItemValue};
ghost use Rattle.pick_expr.specs.Progress.{Continues, ended, fault_in, IsFaultOf, IsPassed, passed, words_in};
ghost use Rattle.pick_expr.specs.Refusals.{IsReadAs, IsRefused};
ghost use Rattle.pick_expr.specs.Signs.{behind_all, behind_item, day_of, Placed, place_of, sign_of, signs_in, with_sign};
ghost use Rattle.pick_expr.specs.Spots.{spot_of};
ghost use Rattle.pick_expr.specs.Steps.{at_start, step};
ghost use Rattle.pick_expr.specs.Whole.{IsExprOf, expr_in};

use crate::sign::{Setting, read_sign};
use crate::spot::Reader;
use crate::{ExprFault, Lexeme, Sign};
use mh_base::{Bytes, List};
use mh_words::{Item, Words};
use std::alloc::{AllocError, Global};

/// An expression: its words, which stand as an expression's words may.
#[derive(Drop)]
pub struct Expr {
    pub(crate) words: List<Lexeme>,
}

/// How far the words were read: what may follow, the words of the expression, and the field whose dates are tested.
#[derive(Drop)]
pub(crate) struct Progress {
    reader: Reader,
    words: List<Lexeme>,
    field: Bytes,
    /// Whether there was a word of the expression.
    is_begun: bool,
}

fn start(alloc: Global) -> Result<Progress, AllocError>
    ensures reader { IfOk result (λ p. spot_of p.reader ≡ at_start) }
    ensures words { IfOk result (λ p. p.words ≡ []) }
    ensures field { IfOk result (λ p. p.field ≡ codes "date") }
    ensures begun { IfOk result (λ p. p.is_begun ≡ false) }
{
    Ok(Progress {
        reader: Reader::new(alloc),
        words: List::new(alloc),
        field: Bytes::from_slice(alloc, b"date")?,
        is_begun: false,
    })
}

fn place(item: &Item) -> u64
    ensures { result ≡ place_of item.now }
{
    match item {
        Item::Folder { place, .. }
        | Item::Message { place, .. }
        | Item::Switch { place, .. }
        | Item::Component { place, .. } => *place,
    }
}

/// The place behind an item, whose value is a word of its own.
fn behind(item: &Item) -> u64
    ensures { result ≡ behind_item item.now }
{
    match item {
        Item::Folder { place, .. }
        | Item::Message { place, .. }
        | Item::Switch {
            value: None,
            place,
            ..
        } => place.saturating_add(1),
        Item::Switch {
            value: Some(_),
            place,
            ..
        }
        | Item::Component { place, .. } => place.saturating_add(2),
    }
}

/// The place behind all words.
fn end_of(items: &[Item]) -> u64
    ensures { result ≡ behind_all items.now }
{
    match items.last() {
        Some(item) => behind(item),
        None => 0,
    }
}

impl Progress {
    /// Passes a word of the expression.
    fn pass(&mut self, place: u64, word: Lexeme) -> Result<(), ExprFault>
        ensures ok { IfOk result (λ _. IsPassed place word self.old self.new) }
        ensures err { IfErr result (λ e. IsFaultOf (passed place (step word (spot_of self.old.reader)) (λ _. None)) e) }
    {
        if !self.reader.pass(&word)? {
            return Err(ExprFault::BadExpr(place));
        }
        self.words.push(word)?;
        self.is_begun = true;
        Ok(())
    }

    /// Passes what an item is.
    fn take(&mut self, place: u64, sign: Sign) -> Result<(), ExprFault>
        ensures ok { IfOk result (λ _. (rest : ListOf ℕ → ListOf Placed)
            → Continues self.old self.new (with_sign place sign self.old.field rest) (rest self.new.field)) }
        ensures err { IfErr result (λ e. (rest : ListOf ℕ → ListOf Placed)
            → (end : ℕ)
            → IsFaultOf (fault_in end (with_sign place sign self.old.field rest) (spot_of self.old.reader) self.old.is_begun) e) }
    {
        match sign {
            Sign::Aside => Ok(()),
            Sign::Field(name) => {
                self.field = name;
                Ok(())
            }
            Sign::Word(word) => self.pass(place, word),
            Sign::BadPattern => Err(ExprFault::BadExpr(place)),
            Sign::BadDate => Err(ExprFault::BadDate(place)),
        }
    }

    /// Passes an item.
    fn take_item(&mut self, alloc: Global, item: &Item, setting: &Setting) -> Result<(), ExprFault>
        requires { IsSetting setting.now.moment setting.now.offset_minutes }
        ensures ok { (today : ℤ) → IsToday setting.now.moment setting.now.offset_minutes today
            → IfOk result (λ _. (items : ListOf ItemValue)
            → Continues self.old self.new
            (signs_in (day_of today setting.now.offset_minutes) (item.now ∷ items) self.old.field)
            (signs_in (day_of today setting.now.offset_minutes) items self.new.field)) }
        ensures err { (today : ℤ) → IsToday setting.now.moment setting.now.offset_minutes today
            → IfErr result (λ e. (items : ListOf ItemValue)
            → (end : ℕ)
            → IsFaultOf (fault_in end
            (signs_in (day_of today setting.now.offset_minutes) (item.now ∷ items) self.old.field)
            (spot_of self.old.reader) self.old.is_begun) e) }
    {
        let sign = read_sign(alloc, setting, &self.field, item)?;
        self.take(place(item), sign)
    }

    /// The expression, if it may end here, where this is the place behind all words.
    fn finish(self, end: u64) -> Result<Expr, ExprFault>
        ensures ok { IfOk result (λ e. e.words ≡ self.words) }
        ensures fine { IfOk result (λ _. ended end (spot_of self.reader) self.is_begun ≡ None) }
        ensures err { IfErr result (λ e. IsFaultOf (ended end (spot_of self.reader) self.is_begun) e) }
    {
        let Progress {
            reader,
            words,
            is_begun,
            ..
        } = self;
        if is_begun && !reader.may_end() {
            Err(ExprFault::BadExpr(end))
        } else {
            Ok(Expr { words })
        }
    }
}

/// Reads items one after another.
fn read_items(alloc: Global, items: &[Item], setting: &Setting) -> Result<Expr, ExprFault>
    requires { IsSetting setting.now.moment setting.now.offset_minutes }
    ensures ok { (today : ℤ) → IsToday setting.now.moment setting.now.offset_minutes today
        → IfOk result (λ e.
        (fault_in (behind_all items.now) (signs_in (day_of today setting.now.offset_minutes) items.now (codes "date"))
        at_start false ≡ None)
        × (e.words ≡ words_in (signs_in (day_of today setting.now.offset_minutes) items.now (codes "date")))) }
    ensures err { (today : ℤ) → IsToday setting.now.moment setting.now.offset_minutes today
        → IfErr result (IsFaultOf
        (fault_in (behind_all items.now) (signs_in (day_of today setting.now.offset_minutes) items.now (codes "date"))
        at_start false)) }
{
    let mut progress = start(alloc)?;
    for item in items {
        match progress.take_item(alloc, item, setting) {
            Ok(()) => {}
            Err(fault) => return Err(fault),
        }
    }
    progress.finish(end_of(items))
}

/// Reads the expression of a command line, whose words were read with the switches of `pick`. The dates
/// of its tests are named at this moment, by a clock that is so many minutes ahead.
pub fn read_expr(
    alloc: Global,
    words: &Words,
    now: i64,
    offset_minutes: i32,
) -> Result<Expr, ExprFault>
    requires { IsSetting now offset_minutes }
    ensures expression { (today : ℤ) → IsToday now offset_minutes today
        → IfOk result (IsReadAs (signs_in (day_of today offset_minutes) words.now.items (codes "date"))) }
    ensures refusal { (today : ℤ) → IsToday now offset_minutes today
        → IfErr result (IsRefused (behind_all words.now.items)
        (signs_in (day_of today offset_minutes) words.now.items (codes "date"))) }
    ensures value { IsExprOf (expr_in now offset_minutes words.now.items) result }
{
    let setting = Setting {
        moment: now,
        offset_minutes,
    };
    read_items(alloc, words.items.as_slice(), &setting)
}
