// A call that is made again while another command works in its folder.
use crate::call::{CallEnd, call_once};
use crate::kept_input::KeptInput;
use crate::start::{StartFault, Surroundings};
use folder_files::Place;
use mh_tools::Status;
use std::alloc::Global;
use std::thread;
use std::time::{Duration, Instant};

/// The pause before the second try, in milliseconds; each further one is twice as long, up to the longest.
const FIRST_PAUSE: u64 = 10;

const LONGEST_PAUSE: u64 = 640;

/// The words of a call, and for how many seconds it is made again, if it is.
#[derive(Drop)]
pub struct Waiting {
    pub words: Vec<String>,
    pub seconds: Option<u32>,
}

/// The words behind `--wait` and its value.
fn behind(alloc: Global, words: &[String]) -> Result<Vec<String>, StartFault> {
    let mut rest = Vec::new(alloc);
    for word in words {
        rest.push(word.clone()?)?;
    }
    Ok(rest)
}

fn is_number(word: &str) -> bool {
    word.bytes().all(|byte| byte.is_ascii_digit())
}

/// A number of seconds, in decimal digits alone.
fn seconds(word: &str) -> Result<u32, StartFault> {
    if !is_number(word) {
        return Err(StartFault::BadWait);
    }
    match word.parse::<u32>() {
        Ok(seconds) => Ok(seconds),
        Err(_) => Err(StartFault::BadWait),
    }
}

/// Takes `--wait` and its value from the front of the words.
pub fn take_wait(alloc: Global, words: Vec<String>) -> Result<Waiting, StartFault> {
    match words.as_slice() {
        [wait] if wait.as_str() == "--wait" => Err(StartFault::NoWait),
        [wait, value, rest @ ..] if wait.as_str() == "--wait" => Ok(Waiting {
            seconds: Some(seconds(value.as_str())?),
            words: behind(alloc, rest)?,
        }),
        _ => Ok(Waiting {
            words,
            seconds: None,
        }),
    }
}

/// Whether a call found its folder locked and changed nothing: folders are locked before anything changes in one. The
/// mail directory is locked at the end, so a call that found that one locked has done its work.
fn may_be_made_again(end: &CallEnd) -> bool {
    matches!(end.status, Status::Locked(Place::Folder(_, _))) && !end.has_written
}

/// How much of the time is left; none where it is over, or the clock can't tell.
fn left(rt: &HostRuntime, began: &Instant, most: Duration) -> Option<Duration> {
    let left = most.saturating_sub(began.elapsed(rt).ok()?);
    if left.is_zero() { None } else { Some(left) }
}

/// Makes a call again and again, until it finds no lock or the time is over.
fn call_until(
    rt: &HostRuntime,
    words: &Vec<String>,
    around: &Surroundings,
    most: Duration,
) -> Result<CallEnd, StartFault> {
    let began = Instant::now(rt)?;
    let mut input = KeptInput::again_and_again(rt.alloc(), rt.stdin());
    let mut end = call_once(rt, words, around, &mut input)?;
    let mut pause = Duration::from_millis(FIRST_PAUSE);
    for _ in 0..u64::MAX {
        if !may_be_made_again(&end) {
            break;
        }
        let Some(left) = left(rt, &began, most) else {
            break;
        };
        thread::sleep(rt, pause.min(left));
        pause = pause
            .saturating_mul(2)
            .min(Duration::from_millis(LONGEST_PAUSE));
        input.begin_anew();
        end = call_once(rt, words, around, &mut input)?;
    }
    Ok(end)
}

/// Makes a call, and again while its folder is locked, for so many seconds where they are given.
pub fn call(
    rt: &HostRuntime,
    waiting: &Waiting,
    around: &Surroundings,
) -> Result<CallEnd, StartFault> {
    match waiting.seconds {
        Some(seconds) => call_until(
            rt,
            &waiting.words,
            around,
            Duration::from_secs(u64::from(seconds)),
        ),
        None => {
            let mut input = KeptInput::once(rt.alloc(), rt.stdin());
            call_once(rt, &waiting.words, around, &mut input)
        }
    }
}
