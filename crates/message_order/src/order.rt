// Messages in order.
ghost use Rattle.std.specs.Prelude.{◌≡◌, ℕ, List, IfOk};
ghost use Rattle.message_order.specs.Order.{AreInOrder};

use mh_base::MsgNum;
use std::alloc::{AllocError, Global};

/// The numbers of messages in the order of their keys, and of those whose keys are the same in the order of their
/// numbers.
pub fn in_order<K: Ord>(
    alloc: Global,
    mut keyed: Vec<(K, MsgNum)>,
) -> Result<Vec<MsgNum>, AllocError>
where
    K: Drop,
    ensures order { IfOk result (λ numbers. AreInOrder K.cmp keyed.items numbers.items) }
    ensures alone { (other : List ℕ)
        → IfOk result (λ numbers. AreInOrder K.cmp keyed.items other → other ≡ numbers.items) }
{
    keyed.sort()?;
    let mut numbers = Vec::new(alloc);
    for item in &keyed {
        numbers.push(item.1)?;
    }
    Ok(numbers)
}
