//! The disk model beside real directories: steps that are drawn from a seed are made on both and compared. Its words are
//! the seed and how many steps; `steps` behind them tells each step. It works in `trial`, a directory that it makes in the
//! current one and takes away.
#![tactic(auto)]

mod agreement;
mod by_design;
mod by_hand;
mod counts;
mod dice;
mod disk_look;
mod draws;
mod happenings;
mod meddled;
mod model;
mod model_look;
mod names;
mod open_drops;
mod pair;
mod runs;
mod seen;
mod shown;
mod sites;
mod texts;
mod trial;

use std::env;
use std::test::Fail;
use trial::Trial;

/// What the words ask for.
#[derive(Clone, Copy)]
struct Asked {
    seed: u64,
    count: u64,
    tells: bool,
}

fn number(word: Option<&String>) -> Result<u64, Fail> {
    match word {
        Some(word) => match word.as_str().parse::<u64>() {
            Ok(number) => Ok(number),
            Err(_) => Err("a number of 64 bits".into()),
        },
        None => Err("a seed and how many steps".into()),
    }
}

fn read_words(rt: &HostRuntime) -> Result<Asked, Fail> {
    let mut words = Vec::new(rt.alloc());
    for word in env::args(rt)?.skip(1) {
        words.push(word)?;
    }
    Ok(Asked {
        seed: number(words.get(0))?,
        count: number(words.get(1))?,
        tells: words.get(2).is_some_and(|word| word.as_str() == "steps"),
    })
}

fn tell_lines(rt: &HostRuntime, lines: &[String]) -> Result<(), Fail> {
    for line in lines {
        println!(rt; "{line}")?;
    }
    Ok(())
}

fn tell(rt: &HostRuntime, seed: u64, trial: &Trial) -> Result<(), Fail> {
    println!(rt; "seed {seed}")?;
    println!(rt;
        "{} steps in {} directories",
        trial.counts.steps(),
        trial.directories
    )?;
    tell_lines(rt, &trial.counts.lines()?)?;
    tell_lines(rt, &trial.lines)?;
    println!(rt; "{} differences", trial.differences)?;
    Ok(())
}

fn main(rt: HostRuntime) -> Result<(), Fail> {
    let asked = read_words(&rt)?;
    let mut trial = Trial::new(rt.alloc(), asked.seed, asked.tells);
    trial.run(&rt, asked.count)?;
    tell(&rt, asked.seed, &trial)?;
    if trial.differences > 0 {
        return Err("the disk differs from the model".into());
    }
    Ok(())
}
