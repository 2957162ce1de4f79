// Calls of functions.

use crate::{Argument, Function};
use mh_base::List;

/// A function of an argument, and then the functions around it, from the inside on: each takes the result
/// of the one before.
#[derive(Drop)]
pub struct Call {
    pub function: Function,
    pub argument: Argument,
    pub around: List<Function>,
}
