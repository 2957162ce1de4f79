//! The law on commits, of calls of `mh`: a folder's sequences, and the context, are the fold of what the calls that
//! count make of them.
#![tactic(auto)]

mod laws;

pub use laws::fold_of_calls;
