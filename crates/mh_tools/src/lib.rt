//! The top call of `mh`, and what it promises.
#![tactic(auto)]

mod lines;
mod setting;
mod shown;
mod status;
mod top;

pub use setting::Setting;
pub use status::Status;
pub use top::mh;
