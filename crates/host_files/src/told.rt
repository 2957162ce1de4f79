// What is told of a step that did not serve: one line without its end.
use crate::fault::{Found, HostFault, looked_up};
use crate::paths::Paths;
use crate::shown::{push_error, push_path, push_text, step_path};
use folder_files::{Answer, Place, Step};
use std::alloc::Global;
use std::io::ErrorKind;
use std::{fs, io};

/// A directory with a name that no answer can name.
fn unreadable_line(alloc: Global, paths: &Paths, place: &Place) -> Result<String, HostFault> {
    let directory = paths.place(alloc, place)?;
    let mut line = String::new(alloc);
    push_path(alloc, &mut line, paths, directory.as_str())?;
    push_text(
        &mut line,
        ": a name that is no UTF-8 (`ls -b` shows it); rename it",
    )?;
    Ok(line)
}

/// What a person can do about a message that can't go back to its number.
fn hint(step: &Step, path: &str) -> &'static str {
    if matches!(step, Step::Link(_, _, _)) && path.contains("/.mh_held_") {
        "; move it by hand (mv)"
    } else {
        ""
    }
}

fn step_line(
    alloc: Global,
    paths: &Paths,
    step: &Step,
    error: &io::Error,
) -> Result<String, HostFault> {
    let path = step_path(alloc, paths, step)?;
    let mut line = String::new(alloc);
    push_path(alloc, &mut line, paths, path.as_str())?;
    push_text(&mut line, ": ")?;
    push_error(alloc, &mut line, error)?;
    push_text(&mut line, hint(step, path.as_str()))?;
    Ok(line)
}

/// A line on a step that failed by this error; none where memory lacks for it.
pub(crate) fn failed_line(
    alloc: Global,
    paths: &Paths,
    step: &Step,
    error: &io::Error,
) -> Option<String> {
    match step {
        Step::List(place) if error.kind() == ErrorKind::InvalidFilename => {
            unreadable_line(alloc, paths, place).ok()
        }
        step => step_line(alloc, paths, step, error).ok(),
    }
}

/// Whether a symbolic link stands here that leads nowhere.
fn is_dangling(rt: &HostRuntime, path: &str) -> Result<bool, HostFault> {
    match looked_up(fs::symlink_metadata(rt, path))? {
        Found::There(what) if what.is_symlink() => {
            Ok(matches!(looked_up(fs::metadata(rt, path))?, Found::Gone))
        }
        _ => Ok(false),
    }
}

fn dangling_line(
    rt: &HostRuntime,
    alloc: Global,
    paths: &Paths,
    step: &Step,
) -> Result<Option<String>, HostFault> {
    let path = step_path(alloc, paths, step)?;
    if !is_dangling(rt, path.as_str())? {
        return Ok(None);
    }
    let mut line = String::new(alloc);
    push_path(alloc, &mut line, paths, path.as_str())?;
    push_text(&mut line, ": a symbolic link that leads nowhere")?;
    Ok(Some(line))
}

/// A line on what stands behind an answer that has a cause by hand.
pub(crate) fn meddled_line(
    rt: &HostRuntime,
    alloc: Global,
    paths: &Paths,
    step: &Step,
    answer: &Answer,
) -> Option<String> {
    let is_likely = match (step, answer) {
        (_, Answer::Gone) => true,
        (Step::Link(_, _, _) | Step::Create(_, _, _), Answer::Exists) => true,
        _ => false,
    };
    if !is_likely {
        return None;
    }
    dangling_line(rt, alloc, paths, step).ok()?
}
