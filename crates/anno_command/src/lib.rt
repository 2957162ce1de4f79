//! `anno`: messages get lines in front of their bytes.
#![tactic(auto)]

mod annotating;

pub use anno_plans::AnnoJob;
pub use annotating::anno;
