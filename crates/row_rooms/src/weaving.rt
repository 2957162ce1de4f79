// Another run's steps, woven with those of a row.
use folder_files::{Event, History, Step};
use folder_room::{Happening, Prompt, PromptList};
use mh_base::Duplicate;
use std::alloc::Global;
use std::test::Fail;

fn add_step(alloc: Global, steps: &mut Vec<Step>, step: &Step) -> Result<(), Fail> {
    Ok(steps.push(step.duplicate(alloc)?)?)
}

/// All steps of a history.
pub fn steps_of(alloc: Global, history: &History) -> Result<Vec<Step>, Fail> {
    let mut steps = Vec::new(alloc);
    for event in history.as_slice() {
        if let Event::Act { step, .. } = event {
            add_step(alloc, &mut steps, step)?;
        }
    }
    Ok(steps)
}

/// A number drawn after this one: the multiplier and the increment are those of Knuth's MMIX.
fn drawn_after(number: u64) -> u64 {
    number
        .wrapping_mul(6_364_136_223_846_793_005)
        .wrapping_add(1_442_695_040_888_963_407)
}

/// Before which step the next one stands: three times in four before the same.
fn place_after(at: u64, number: u64) -> u64 {
    if (number >> 33) % 4 == 0 {
        return at.saturating_add((number >> 40) % 4);
    }
    at
}

fn add_prompt(
    alloc: Global,
    prompts: &mut PromptList,
    at: u64,
    run: u128,
    step: &Step,
) -> Result<(), Fail> {
    let step = step.duplicate(alloc)?;
    let what = Happening::Other { run, step };
    Ok(prompts.push(Prompt { at, what })?)
}

/// These steps of the run, one after another, before steps of the row that are drawn by this number.
pub fn woven(alloc: Global, run: u128, steps: &[Step], way: u64) -> Result<PromptList, Fail> {
    let mut prompts = PromptList::new(alloc);
    let mut number = drawn_after(way);
    let mut at = 1 + (number >> 33) % 12;
    for step in steps {
        add_prompt(alloc, &mut prompts, at, run, step)?;
        number = drawn_after(number);
        at = place_after(at, number);
    }
    Ok(prompts)
}
