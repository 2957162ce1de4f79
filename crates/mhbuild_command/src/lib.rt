//! `mhbuild`: a draft becomes a message.
#![tactic(auto)]

mod building;
mod message;
mod text;

pub use building::mhbuild;
pub use mhbuild_plans::BuildJob;
