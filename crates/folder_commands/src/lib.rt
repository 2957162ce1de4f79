//! Commands on a folder by their words: `folder`, `mark`, `pick`, `refile` and `rmm`.
#![tactic(auto)]

mod marking;
mod picking;
mod refiling;
mod removing;
mod telling;

pub use marking::run_mark;
pub use picking::run_pick;
pub use refiling::run_refile;
pub use removing::run_rmm;
pub use telling::run_folder;
