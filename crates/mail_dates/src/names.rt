// English names.
ghost use Rattle.std.specs.Prelude.{◌≡◌, ◌<◌, ◌≤◌, length, IfSome, codes};
ghost use Rattle.mail_dates.specs.Names.{same as is_same, is_letter as is_a_letter, begins_weekday as begins_a_weekday, is_named as is_named_so, early_month as early_month_of, late_month as late_month_of, month_in as month_of, weekday_named as weekday_of};

/// How names are compared.
#[derive(Clone, Copy)]
pub(crate) enum Case {
    AsWritten,
    Any,
}

pub(crate) fn same(case: Case, a: &[u8], b: &[u8]) -> bool
    ensures { result ≡ is_same case a.now b.now }
{
    match case {
        Case::AsWritten => a == b,
        Case::Any => a.eq_ignore_ascii_case(b),
    }
}

pub(crate) fn is_letter(byte: u8) -> bool
    ensures { result ≡ is_a_letter byte }
{
    byte.is_ascii_alphabetic()
}

pub(crate) fn begins_weekday(three: &[u8]) -> bool
    ensures { result ≡ begins_a_weekday three.now }
{
    three == b"Sun".as_slice()
        || three == b"Mon".as_slice()
        || three == b"Tue".as_slice()
        || three == b"Wed".as_slice()
        || three == b"Thu".as_slice()
        || three == b"Fri".as_slice()
        || three == b"Sat".as_slice()
}

fn is_named(case: Case, name: &[u8], word: &[u8]) -> bool
    requires { 3 ≤ length name.now }
    ensures { result ≡ is_named_so case name.now word.now }
{
    let (three, _) = name.split_at(3);
    same(case, word, name) || same(case, word, three)
}

fn early_month(case: Case, word: &[u8]) -> Option<u8>
    ensures value { result ≡ early_month_of case word.now }
    ensures small { IfSome result (λ n. n < 100) }
{
    if is_named(case, b"January", word) {
        Some(1)
    } else if is_named(case, b"February", word) {
        Some(2)
    } else if is_named(case, b"March", word) {
        Some(3)
    } else if is_named(case, b"April", word) {
        Some(4)
    } else if is_named(case, b"May", word) {
        Some(5)
    } else if is_named(case, b"June", word) {
        Some(6)
    } else {
        None
    }
}

fn late_month(case: Case, word: &[u8]) -> Option<u8>
    ensures value { result ≡ late_month_of case word.now }
    ensures small { IfSome result (λ n. n < 100) }
{
    if is_named(case, b"July", word) {
        Some(7)
    } else if is_named(case, b"August", word) {
        Some(8)
    } else if is_named(case, b"September", word) {
        Some(9)
    } else if is_named(case, b"October", word) {
        Some(10)
    } else if is_named(case, b"November", word) {
        Some(11)
    } else if is_named(case, b"December", word) {
        Some(12)
    } else {
        None
    }
}

/// The month of a name, whole or of three letters.
pub(crate) fn month(case: Case, word: &[u8]) -> Option<u8>
    ensures value { result ≡ month_of case word.now }
    ensures small { IfSome result (λ n. n < 100) }
{
    match early_month(case, word) {
        None => late_month(case, word),
        Some(month) => Some(month),
    }
}

/// The day of the week of a whole name, from 0 for Sunday.
pub(crate) fn weekday(word: &[u8]) -> Option<u8>
    ensures value { result ≡ weekday_of word.now }
    ensures small { IfSome result (λ w. w < 7) }
{
    if same(Case::Any, word, b"sunday") {
        Some(0)
    } else if same(Case::Any, word, b"monday") {
        Some(1)
    } else if same(Case::Any, word, b"tuesday") {
        Some(2)
    } else if same(Case::Any, word, b"wednesday") {
        Some(3)
    } else if same(Case::Any, word, b"thursday") {
        Some(4)
    } else if same(Case::Any, word, b"friday") {
        Some(5)
    } else if same(Case::Any, word, b"saturday") {
        Some(6)
    } else {
        None
    }
}
