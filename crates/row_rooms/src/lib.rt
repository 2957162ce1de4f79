//! Mailboxes in memory in which runs act by the lines of rows (docs/ROWS.md): what is shown of them, and the steps of
//! runs.
#![tactic(auto)]

mod answers;
mod counted;
mod scene;
mod shown;
mod weaving;

pub use scene::Scene;
pub use weaving::{steps_of, woven};
