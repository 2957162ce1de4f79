//! Real directories: the steps of folder_files by the system's calls.
#![tactic(auto)]

mod changing;
mod copying;
mod dot_lock;
mod drop_lock;
mod drops;
mod fault;
mod files;
mod held_drop;
mod kept;
mod link_trials;
mod linking;
mod listed;
mod locks;
mod making;
mod names;
mod new_file;
mod paths;
mod reading;
mod room;
mod same_file;
mod shown;
mod told;
mod unlinking;

pub use files::HostFiles;
