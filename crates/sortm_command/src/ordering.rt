// Messages in order.
ghost use Rattle.std.specs.Prelude.{◌≡◌, IfOk, None, map};
ghost use Rattle.std.specs.List.{zip};
ghost use Rattle.sortm_plans.specs.Ordered.{filled_behind, in_order as in_order_of, order_by_dates as order_of_dates, order_by_texts as order_of_texts};

use message_order::{filled_dates, in_order};
use mh_base::{BytesList, List, MsgNum};
use std::alloc::{AllocError, Global};

/// The numbers of messages in the order of their keys, and of those whose keys are the same in the order of their
/// numbers.
fn ordered<K: Ord>(alloc: Global, keyed: Vec<(K, MsgNum)>) -> Result<List<MsgNum>, AllocError>
where
    K: Drop,
    ensures { IfOk result (λ order. order ≡ in_order_of K.cmp keyed.items) }
{
    let order = in_order(alloc, keyed)?;
    Ok(List::from_vec(order))
}

/// A message without a date has that of the message before it.
fn filled(alloc: Global, dates: &[Option<i64>]) -> Result<Vec<Option<i64>>, AllocError>
    ensures { IfOk result (λ keys. keys.items ≡ filled_behind None dates.now) }
{
    filled_dates(alloc, dates)
}

fn with_dates(
    alloc: Global,
    keys: &[Option<i64>],
    numbers: &[MsgNum],
) -> Result<Vec<(Option<i64>, MsgNum)>, AllocError>
    ensures { IfOk result (λ keyed. keyed.items ≡ zip keys.now numbers.now) }
{
    let mut keyed = Vec::new(alloc);
    for i in 0..keys.len().min(numbers.len()) {
        keyed.push((keys[i], numbers[i]))?;
    }
    Ok(keyed)
}

/// The numbers of messages in the order of these dates.
pub(crate) fn order_by_dates(
    alloc: Global,
    dates: &[Option<i64>],
    numbers: &[MsgNum],
) -> Result<List<MsgNum>, AllocError>
    ensures { IfOk result (λ order. order ≡ order_of_dates dates.now numbers.now) }
{
    let keys = filled(alloc, dates)?;
    let keyed = with_dates(alloc, keys.as_slice(), numbers)?;
    ordered(alloc, keyed)
}

fn with_texts(
    alloc: Global,
    texts: BytesList,
    numbers: &[MsgNum],
) -> Result<Vec<(Vec<u8>, MsgNum)>, AllocError>
    ensures { IfOk result (λ keyed. map (λ x. (x.0.items, x.1)) keyed.items ≡ zip texts numbers.now) }
{
    let mut keyed = Vec::new(alloc);
    for text in texts.into_vec() {
        if let Some(number) = numbers.get(keyed.len()) {
            keyed.push((text.into_vec(), *number))?;
        }
    }
    Ok(keyed)
}

/// The numbers of messages in the order of these texts.
pub(crate) fn order_by_texts(
    alloc: Global,
    texts: BytesList,
    numbers: &[MsgNum],
) -> Result<List<MsgNum>, AllocError>
    ensures { IfOk result (λ order. order ≡ order_of_texts texts numbers.now) }
{
    let keyed = with_texts(alloc, texts, numbers)?;
    ordered(alloc, keyed)
}
