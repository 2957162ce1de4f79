// How many steps a run asked for.
use folder_files::{Event, History, Step};
use mh_base::Bytes;
use std::alloc::Global;
use std::test::Fail;

fn is_step_of(event: &Event, run: u128) -> bool {
    match event {
        Event::Act { run: by, .. } => *by == run,
        _ => false,
    }
}

fn is_lock(event: &Event) -> bool {
    match event {
        Event::Act {
            step: Step::Lock(_),
            ..
        } => true,
        _ => false,
    }
}

/// How many steps the run asked for, and how many of them were locks.
fn counts(history: &History, run: u128) -> (u64, u64) {
    let mut steps = 0u64;
    let mut locks = 0u64;
    for event in history.as_slice() {
        if is_step_of(event, run) {
            steps = steps.saturating_add(1);
            if is_lock(event) {
                locks = locks.saturating_add(1);
            }
        }
    }
    (steps, locks)
}

/// The run's steps, and how many of them were locks.
pub fn show_counted(
    alloc: Global,
    history: &History,
    run: u128,
    told: &mut Bytes,
) -> Result<(), Fail> {
    let (steps, locks) = counts(history, run);
    told.extend(format!(in alloc; "{steps} steps, {locks} locks\n")?.as_bytes())?;
    Ok(())
}
