// What words designate, number by number.
ghost use Rattle.std.specs.Prelude.{◌≡◌, ◌≤◌, ◌==◌, ◌||◌, not, filter, find, take, IfOk};
ghost use Rattle.mh_sequences.specs.Sequences.{member};
ghost use Rattle.msg_ranges.specs.Plain.{GivesList};
ghost use Rattle.msg_ranges.specs.Selection.{between, chosen, current as current_of, counted as counted_from, counted_members, from as from_number, goes_up as goes_up_by, is_end as is_end_name, members as members_of, named as named_number, one as one_of, others as others_of, some_or as some_numbers_or, spotted, take_last as last_of, unless_void, up_to as up_to_number, marks_of};

use mh_base::{List, MsgNum};
use mh_sequences::{SeqName, Sequences};
use msg_ranges::{Base, SelectFault, Spec, Spot, Way};
use std::alloc::{AllocError, Global};

/// The current number, or 0 where there is none.
fn current(sequences: &Sequences) -> u32
    ensures value { result ≡ current_of sequences.now.cur }
    ensures top { result ≤ 999999 }
{
    match sequences.cur() {
        Some(cur) => cur.get(),
        None => 0,
    }
}

/// Whether a count goes up from this name.
fn goes_up(name: &Base, way: Way) -> bool
    ensures { result ≡ goes_up_by name.now way }
{
    match way {
        Way::Plus => true,
        Way::Minus => false,
        Way::Unsigned => !matches!(name, Base::Last | Base::Prev),
    }
}

/// Whether a name is an end of the folder.
fn is_end(name: &Base) -> bool
    ensures { result ≡ is_end_name name.now }
{
    matches!(name, Base::First | Base::Last)
}

fn from(alloc: Global, numbers: &[MsgNum], n: u32) -> Result<Vec<MsgNum>, AllocError>
    ensures { IfOk result (λ v. v.items ≡ from_number n numbers.now) }
{
    numbers
        .iter()
        .copied()
        .filter(|x| n <= x.get())
        .collect(alloc)
}

fn up_to(alloc: Global, numbers: &[MsgNum], n: u32) -> Result<Vec<MsgNum>, AllocError>
    ensures { IfOk result (λ v. v.items ≡ up_to_number n numbers.now) }
{
    numbers
        .iter()
        .copied()
        .filter(|x| x.get() <= n)
        .collect(alloc)
}

fn just(alloc: Global, numbers: &[MsgNum], n: u32) -> Result<Vec<MsgNum>, AllocError>
    ensures { IfOk result (λ v. v.items ≡ filter (λ x. x == n) numbers.now) }
{
    numbers
        .iter()
        .copied()
        .filter(|x| x.get() == n)
        .collect(alloc)
}

fn found(numbers: &[MsgNum], n: u32) -> Option<MsgNum>
    ensures { result ≡ find (λ x. x == n) numbers.now }
{
    numbers.iter().copied().find(|x| x.get() == n)
}

fn first(alloc: Global, numbers: &[MsgNum], count: u32) -> Result<Vec<MsgNum>, AllocError>
    ensures { IfOk result (λ v. v.items ≡ take count numbers.now) }
{
    numbers.iter().copied().take(count as usize).collect(alloc)
}

fn last(alloc: Global, numbers: &[MsgNum], count: u32) -> Result<Vec<MsgNum>, AllocError>
    ensures { IfOk result (λ v. v.items ≡ last_of count numbers.now) }
{
    let (_, behind) = numbers.split_at(numbers.len().saturating_sub(count as usize));
    behind.to_vec(alloc)
}

fn is_member(sequences: &Sequences, name: &SeqName, n: MsgNum) -> bool
    ensures { result ≡ member sequences.now.users name.now n }
{
    match sequences.get(name) {
        Some(set) => set.has(n),
        None => false,
    }
}

fn members(
    alloc: Global,
    numbers: &[MsgNum],
    sequences: &Sequences,
    name: &SeqName,
) -> Result<Vec<MsgNum>, AllocError>
    ensures { IfOk result (λ v. v.items ≡ members_of numbers.now (marks_of sequences.now) name.now) }
{
    numbers
        .iter()
        .copied()
        .filter(|x| is_member(sequences, name, *x))
        .collect(alloc)
}

fn others(
    alloc: Global,
    numbers: &[MsgNum],
    sequences: &Sequences,
    name: &SeqName,
) -> Result<Vec<MsgNum>, AllocError>
    ensures { IfOk result (λ v. v.items ≡ others_of numbers.now (marks_of sequences.now) name.now) }
{
    numbers
        .iter()
        .copied()
        .filter(|x| !is_member(sequences, name, *x))
        .collect(alloc)
}

fn named(
    alloc: Global,
    numbers: &[MsgNum],
    sequences: &Sequences,
    name: &Base,
) -> Result<Option<MsgNum>, AllocError>
    ensures { IfOk result (λ n. n ≡ named_number numbers.now sequences.now.cur name.now) }
{
    match name {
        Base::Number(n) => Ok(Some(*n)),
        Base::First => Ok(numbers.first().copied()),
        Base::Last => Ok(numbers.last().copied()),
        Base::Cur => match sequences.cur() {
            Some(cur) => Ok(found(numbers, cur.get())),
            None => Ok(None),
        },
        Base::Prev => {
            let below = up_to(alloc, numbers, current(sequences).saturating_sub(1))?;
            Ok(below.as_slice().last().copied())
        }
        Base::Next => {
            let above = from(alloc, numbers, current(sequences) + 1)?;
            Ok(above.as_slice().first().copied())
        }
    }
}

fn some_or(fault: SelectFault, numbers: Vec<MsgNum>) -> Result<List<MsgNum>, SelectFault>
    ensures { result ≡ some_numbers_or fault numbers.items }
{
    if numbers.is_empty() {
        Err(fault)
    } else {
        Ok(List::from_vec(numbers))
    }
}

fn one(
    alloc: Global,
    index: u64,
    numbers: &[MsgNum],
    number: Option<MsgNum>,
) -> Result<List<MsgNum>, SelectFault>
    ensures { GivesList index (one_of index numbers.now number) result }
{
    let Some(n) = number else {
        return Err(SelectFault::Absent(index));
    };
    let found = just(alloc, numbers, n.get())?;
    some_or(SelectFault::Absent(index), found)
}

fn range(
    alloc: Global,
    index: u64,
    numbers: &[MsgNum],
    a: Option<MsgNum>,
    b: Option<MsgNum>,
) -> Result<List<MsgNum>, SelectFault>
    ensures { GivesList index (between index numbers.now a b) result }
{
    let (Some(a), Some(b)) = (a, b) else {
        return Err(SelectFault::Absent(index));
    };
    let below = up_to(alloc, numbers, b.get())?;
    let found = from(alloc, below.as_slice(), a.get())?;
    some_or(SelectFault::EmptyRange(index), found)
}

fn counted(
    alloc: Global,
    index: u64,
    numbers: &[MsgNum],
    number: Option<MsgNum>,
    up: bool,
    count: u32,
) -> Result<List<MsgNum>, SelectFault>
    ensures { GivesList index (counted_from index numbers.now number up count) result }
{
    let Some(n) = number else {
        return Err(SelectFault::Absent(index));
    };
    let found = if up {
        let above = from(alloc, numbers, n.get())?;
        first(alloc, above.as_slice(), count)?
    } else {
        let below = up_to(alloc, numbers, n.get())?;
        last(alloc, below.as_slice(), count)?
    };
    some_or(SelectFault::EmptyRange(index), found)
}

fn count_members(
    alloc: Global,
    members: &[MsgNum],
    way: Way,
    count: u32,
) -> Result<Vec<MsgNum>, AllocError>
    ensures { IfOk result (λ v. v.items ≡ counted_members way count members.now) }
{
    match way {
        Way::Unsigned => first(alloc, members, count),
        Way::Plus => first(alloc, members, count),
        Way::Minus => last(alloc, members, count),
    }
}

fn member_at(
    alloc: Global,
    members: &[MsgNum],
    cur: u32,
    spot: Spot,
) -> Result<Vec<MsgNum>, AllocError>
    requires { cur ≤ 999999 }
    ensures { IfOk result (λ v. v.items ≡ spotted cur spot members.now) }
{
    match spot {
        Spot::First => first(alloc, members, 1),
        Spot::Last => last(alloc, members, 1),
        Spot::Next => {
            let above = from(alloc, members, cur + 1)?;
            first(alloc, above.as_slice(), 1)
        }
        Spot::Prev => {
            let below = up_to(alloc, members, cur.saturating_sub(1))?;
            last(alloc, below.as_slice(), 1)
        }
    }
}

fn choose_one(
    alloc: Global,
    index: u64,
    numbers: &[MsgNum],
    sequences: &Sequences,
    name: &Base,
) -> Result<List<MsgNum>, SelectFault>
    ensures { GivesList index
        (unless_void index (is_end_name name.now) numbers.now
        (one_of index numbers.now (named_number numbers.now sequences.now.cur name.now))) result }
{
    if is_end(name) && numbers.is_empty() {
        return Err(SelectFault::EmptyRange(index));
    }
    let n = named(alloc, numbers, sequences, name)?;
    one(alloc, index, numbers, n)
}

fn choose_range(
    alloc: Global,
    index: u64,
    numbers: &[MsgNum],
    sequences: &Sequences,
    a: &Base,
    b: &Base,
) -> Result<List<MsgNum>, SelectFault>
    ensures { GivesList index
        (unless_void index (is_end_name a.now || is_end_name b.now) numbers.now
        (between index numbers.now (named_number numbers.now sequences.now.cur a.now)
        (named_number numbers.now sequences.now.cur b.now))) result }
{
    let end = is_end(a) || is_end(b);
    if end && numbers.is_empty() {
        return Err(SelectFault::EmptyRange(index));
    }
    let a = named(alloc, numbers, sequences, a)?;
    let b = named(alloc, numbers, sequences, b)?;
    range(alloc, index, numbers, a, b)
}

fn choose_count(
    alloc: Global,
    index: u64,
    numbers: &[MsgNum],
    sequences: &Sequences,
    name: &Base,
    way: Way,
    count: u32,
) -> Result<List<MsgNum>, SelectFault>
    ensures { GivesList index
        (unless_void index (is_end_name name.now) numbers.now
        (counted_from index numbers.now (named_number numbers.now sequences.now.cur name.now)
        (goes_up_by name.now way) count)) result }
{
    if is_end(name) && numbers.is_empty() {
        return Err(SelectFault::EmptyRange(index));
    }
    let n = named(alloc, numbers, sequences, name)?;
    counted(alloc, index, numbers, n, goes_up(name, way), count)
}

/// What the word at this place designates, or why it is refused: the definition as it stands.
pub(crate) fn choose_plainly(
    alloc: Global,
    index: u64,
    spec: &Spec,
    numbers: &[MsgNum],
    sequences: &Sequences,
) -> Result<List<MsgNum>, SelectFault>
    ensures { GivesList index (chosen index numbers.now (marks_of sequences.now) spec.now) result }
{
    match spec {
        Spec::One(name) => choose_one(alloc, index, numbers, sequences, name),
        Spec::Range(a, b) => choose_range(alloc, index, numbers, sequences, a, b),
        Spec::Count(name, way, count) => {
            choose_count(alloc, index, numbers, sequences, name, *way, *count)
        }
        Spec::All => {
            let found = numbers.to_vec(alloc)?;
            some_or(SelectFault::EmptyRange(index), found)
        }
        Spec::Sequence(name) => {
            let found = members(alloc, numbers, sequences, name)?;
            some_or(SelectFault::EmptySequence(index), found)
        }
        Spec::SequenceCount(name, way, count) => {
            let members = members(alloc, numbers, sequences, name)?;
            let found = count_members(alloc, members.as_slice(), *way, *count)?;
            some_or(SelectFault::EmptySequence(index), found)
        }
        Spec::SequenceSpot(name, spot) => {
            let members = members(alloc, numbers, sequences, name)?;
            let found = member_at(alloc, members.as_slice(), current(sequences), *spot)?;
            some_or(SelectFault::EmptySequence(index), found)
        }
        Spec::Negated(name) => {
            let found = others(alloc, numbers, sequences, name)?;
            some_or(SelectFault::EmptySequence(index), found)
        }
    }
}
