// How many steps of each kind were made with which answer.
use std::alloc::Global;
use std::test::Fail;

/// What was made, its answer, and how often.
#[derive(Clone, Copy)]
struct Count {
    made: &'static str,
    answer: &'static str,
    times: u64,
}

#[derive(Drop)]
pub struct Counts {
    alloc: Global,
    counts: Vec<Count>,
    steps: u64,
}

/// What may be made, in the order in which it is told.
const MADE: &[&str] = &[
    "List",
    "Read",
    "MakeFolder",
    "Create",
    "SyncFile",
    "SyncFolder",
    "Link",
    "Rename",
    "Unlink",
    "Lock",
    "Unlock",
    "ReadFile",
    "ReadDrop",
    "CutDrop",
    "a run",
    "a drop",
    "a directory by hand",
    "a link by hand",
];

/// What may be answered, or what else was so.
const ANSWERS: &[&str] = &[
    "Done",
    "Names",
    "Content",
    "Piece",
    "Long",
    "Gone",
    "Exists",
    "Busy",
    "Grown",
    "Failed",
    "ended",
    "killed",
    "grew",
    "went away",
    "made",
];

impl Counts {
    pub fn new(alloc: Global) -> Counts {
        Counts {
            alloc,
            counts: Vec::new(alloc),
            steps: 0,
        }
    }

    /// How many steps were made.
    pub fn steps(&self) -> u64 {
        self.steps
    }

    /// Counts a step.
    pub fn add_step(&mut self, made: &'static str, answer: &'static str) -> Result<(), Fail> {
        self.steps = self.steps.saturating_add(1);
        self.add(made, answer)
    }

    /// Counts what happens beside the steps.
    pub fn add(&mut self, made: &'static str, answer: &'static str) -> Result<(), Fail> {
        for count in self.counts.iter_mut() {
            if count.made == made && count.answer == answer {
                count.times = count.times.saturating_add(1);
                return Ok(());
            }
        }
        let times = 1;
        Ok(
            self.counts.push(Count {
                made,
                answer,
                times,
            })?,
        )
    }

    fn times(&self, made: &str, answer: &str) -> u64 {
        let mut counts = self.counts.iter();
        match counts.find(|count| count.made == made && count.answer == answer) {
            Some(count) => count.times,
            None => 0,
        }
    }

    fn push_times(&self, line: &mut String, made: &str, answer: &str) -> Result<(), Fail> {
        let times = self.times(made, answer);
        if times > 0 {
            line.push_str(format!(in self.alloc; "  {answer} {times}")?.as_str())?;
        }
        Ok(())
    }

    fn line(&self, made: &str) -> Result<String, Fail> {
        let mut line = String::from_str(self.alloc, made)?;
        line.push(':')?;
        for answer in ANSWERS {
            self.push_times(&mut line, made, answer)?;
        }
        Ok(line)
    }

    /// A line for each kind.
    pub fn lines(&self) -> Result<Vec<String>, Fail> {
        let mut lines = Vec::new(self.alloc);
        for made in MADE {
            lines.push(self.line(made)?)?;
        }
        Ok(lines)
    }
}
