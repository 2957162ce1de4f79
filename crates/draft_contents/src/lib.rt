//! What a draft wants: the files that its directives name, and the messages that it forwards, are read in their order.
#![tactic(auto)]

mod files;
mod folder;
mod forwarding;
mod messages;
mod wants;

pub use forwarding::Forwarding;
pub use wants::give_all;
