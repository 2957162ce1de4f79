// Steps in one empty directory after another, and what differed.
use crate::agreement::{Answers, agree};
use crate::by_hand::{LETTER, LETTER_TEXT};
use crate::counts::Counts;
use crate::dice::Dice;
use crate::draws::Scene;
use crate::happenings::Chance;
use crate::pair::Pair;
use crate::seen::{Extent, differing};
use crate::shown::{answer_line, answer_word, seen_line, step_line, word_of};
use crate::sites::one_site;
use crate::{disk_look, model_look};
use folder_files::{FilePath, Step};
use std::alloc::Global;
use std::test::Fail;
use std::{env, fs};

/// The directory in which all is done.
const TRIAL: &str = "trial";

/// How many steps are made in one directory.
const LENGTH: u64 = 200;

/// Of more differences only the number is told.
const SHOWN: usize = 20;

/// After every so many steps the bytes of long files are compared too.
const WHOLE: u64 = 20;

#[derive(Drop)]
pub struct Trial {
    alloc: Global,
    dice: Dice,
    pub counts: Counts,
    /// How many directories were begun.
    pub directories: u64,
    pub differences: u64,
    pub lines: Vec<String>,
    /// Whether each step is told.
    tells: bool,
}

fn make_directories(rt: &HostRuntime) -> Result<(), Fail> {
    for path in [
        "trial",
        "trial/home",
        "trial/home/spool",
        "trial/work",
        "trial/work/spool",
        "trial/elsewhere",
    ] {
        fs::create_dir(rt, path)?;
    }
    env::set_current_dir(rt, "trial/work")?;
    Ok(fs::write(rt, LETTER, LETTER_TEXT)?)
}

fn remove_directories(rt: &HostRuntime) -> Result<(), Fail> {
    env::set_current_dir(rt, "../..")?;
    Ok(fs::remove_dir_all(rt, TRIAL)?)
}

/// The drop of a step.
fn drop_of(step: &Step) -> Option<&FilePath> {
    match step {
        Step::ReadDrop { path, .. } => Some(path),
        Step::CutDrop(path, _) => Some(path),
        _ => None,
    }
}

/// The run that makes the step: where one has the drop, that one. Another would wait for ten seconds, and fail.
fn maker(pair: &Pair, run: usize, step: &Step) -> usize {
    match drop_of(step) {
        Some(path) => pair.drops.run_of(path).unwrap_or(run),
        None => run,
    }
}

/// Whether a directory that was made by hand is gone.
fn lost_directory(rt: &HostRuntime, pair: &Pair) -> Result<Option<String>, Fail> {
    for made in pair.meddled.directories.iter() {
        if !fs::metadata(rt, made.path.as_str()).is_ok_and(|what| what.is_dir()) {
            return Ok(Some(format!(in rt.alloc();
                "the directory {} is gone",
                made.path.as_str()
            )?));
        }
    }
    Ok(None)
}

/// What stands on the disk and not in the model, or the other way round.
fn state_difference(rt: &HostRuntime, pair: &Pair, extent: Extent) -> Result<Option<String>, Fail> {
    let alloc = rt.alloc();
    let model = model_look::look(alloc, pair.world(), &pair.site, extent)?;
    let disk = disk_look::look(rt, &pair.site, extent)?;
    let Some(place) = differing(&model, &disk) else {
        return lost_directory(rt, pair);
    };
    let model = seen_line(alloc, model.get(place))?;
    let disk = seen_line(alloc, disk.get(place))?;
    Ok(Some(format!(in alloc; "there is then in the model {model}, on the disk {disk}")?))
}

/// How the answers differ.
fn answer_difference(alloc: Global, answers: &Answers) -> Result<Option<String>, Fail> {
    if agree(alloc, answers)? {
        return Ok(None);
    }
    let model = answer_line(alloc, &answers.model)?;
    let disk = answer_line(alloc, &answers.disk)?;
    Ok(Some(format!(in alloc; "the model answers {model}, the disk {disk}")?))
}

fn difference(
    rt: &HostRuntime,
    pair: &Pair,
    answers: &Answers,
    extent: Extent,
) -> Result<Option<String>, Fail> {
    match answer_difference(rt.alloc(), answers)? {
        Some(line) => Ok(Some(line)),
        None => state_difference(rt, pair, extent),
    }
}

impl Trial {
    pub fn new(alloc: Global, seed: u64, tells: bool) -> Trial {
        Trial {
            alloc,
            dice: Dice::new(seed),
            counts: Counts::new(alloc),
            directories: 0,
            differences: 0,
            lines: Vec::new(alloc),
            tells,
        }
    }

    /// An empty pair, and two or three runs.
    fn begin(&mut self, rt: &HostRuntime) -> Result<Pair, Fail> {
        make_directories(rt)?;
        self.directories = self.directories.saturating_add(1);
        let mut pair = Pair::new(self.alloc, one_site(self.dice.place(3))?)?;
        for _ in 0..self.dice.below(2).saturating_add(2) {
            pair.begin_run(rt)?;
        }
        Ok(pair)
    }

    fn happen(&mut self, rt: &HostRuntime, pair: &mut Pair) -> Result<(), Fail> {
        let mut chance = Chance {
            pair,
            dice: &mut self.dice,
            counts: &mut self.counts,
        };
        chance.happen(rt)
    }

    fn draw(&mut self, pair: &Pair, run: usize) -> Result<Step, Fail> {
        let scene = Scene {
            alloc: self.alloc,
            site: pair.site,
            world: pair.world(),
            run: pair.run_at(run)?,
            began: pair.began,
        };
        scene.step(&mut self.dice)
    }

    fn add_difference(&mut self, line: String) -> Result<(), Fail> {
        self.differences = self.differences.saturating_add(1);
        if self.lines.len() < SHOWN {
            self.lines.push(line)?;
        }
        Ok(())
    }

    /// How a step is told: its place among all, its run, and itself.
    fn line(&self, run: usize, step: &Step) -> Result<String, Fail> {
        let number = self.counts.steps();
        let step = step_line(self.alloc, step)?;
        Ok(format!(in self.alloc; "step {number} of run {run}: {step}")?)
    }

    fn tell(&self, rt: &HostRuntime, line: &str, answers: &Answers) -> Result<(), Fail> {
        if self.tells {
            let answer = answer_line(self.alloc, &answers.disk)?;
            println!(rt; "{line}: {answer}")?;
        }
        Ok(())
    }

    /// What is compared after the newest step.
    fn extent(&self) -> Extent {
        if self.counts.steps() % WHOLE == 0 {
            Extent::All
        } else {
            Extent::Short
        }
    }

    /// One step: whether it differed.
    fn act(&mut self, rt: &HostRuntime, pair: &mut Pair) -> Result<bool, Fail> {
        let drawn = self.dice.place(pair.count_of_runs());
        let step = self.draw(pair, drawn)?;
        let run = maker(pair, drawn, &step);
        let answers = pair.act(run, &step)?;
        self.counts
            .add_step(word_of(&step), answer_word(&answers.disk))?;
        let line = self.line(run, &step)?;
        self.tell(rt, line.as_str(), &answers)?;
        match difference(rt, pair, &answers, self.extent())? {
            Some(how) => {
                self.add_difference(format!(in self.alloc; "{line}: {how}")?)?;
                Ok(true)
            }
            None => Ok(false),
        }
    }

    /// So many steps in one directory, or fewer where they differ.
    fn steps(&mut self, rt: &HostRuntime, pair: &mut Pair, count: u64) -> Result<u64, Fail> {
        for made in 0..count {
            self.happen(rt, pair)?;
            if self.act(rt, pair)? {
                return Ok(made + 1);
            }
        }
        Ok(count)
    }

    fn one_directory(&mut self, rt: &HostRuntime, count: u64) -> Result<u64, Fail> {
        let mut pair = self.begin(rt)?;
        let made = self.steps(rt, &mut pair, count)?;
        pair.end_all();
        remove_directories(rt)?;
        Ok(made)
    }

    /// So many steps.
    pub fn run(&mut self, rt: &HostRuntime, count: u64) -> Result<(), Fail> {
        let mut left = count;
        for _ in 0..count {
            if left == 0 {
                break;
            }
            let made = self.one_directory(rt, left.min(LENGTH))?;
            left = left.saturating_sub(made);
        }
        Ok(())
    }
}
