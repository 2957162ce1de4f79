//! Messages leave their folder: `rmm`, and `refile`, by which they go to others.
#![tactic(auto)]

mod destinations;
mod gathering;
mod leaving;
mod letting_go;
mod moving;
mod refiling;
mod removing;
mod rooms;
mod targets;

pub use leaving::rmm;
pub use refile_plans::{RefileJob, RmmJob};
pub use refiling::refile;
