// The lines, one after another.
use crate::calls::show_setting;
use crate::commands::Commands;
use crate::sweep::Sweep;
use folder_room::PromptList;
use mh_base::Bytes;
use row_mailboxes::{Given, prompt};
use row_text::{from, number, word, words};
use std::alloc::Global;
use std::test::Fail;

/// A row: its mailbox, what else happens, and where its commands run from the first of them on; and all that was told
/// so far.
#[derive(Drop)]
struct Play {
    alloc: Global,
    given: Given,
    prompts: PromptList,
    commands: Option<Commands>,
    sweep: Option<Sweep>,
    told: Bytes,
}

/// What a line outside of a sweep is.
#[derive(Clone, Copy)]
enum Kind {
    Row,
    Again,
    Prompt,
    Setting,
    Sweep,
    Alone,
    /// A command or a step.
    Acts,
    /// What is told without its line.
    Looks,
    Gives,
}

/// A line on what was left before.
fn going_on(word: &[u8]) -> Kind {
    match word {
        b"$" | b"run" => Kind::Acts,
        b"show" | b"drop" | b"lock" | b"count" | b"in" | b"in-fails" | b"out" => Kind::Looks,
        _ => Kind::Gives,
    }
}

fn kind_of(word: &[u8]) -> Kind {
    match word {
        b"=" => Kind::Row,
        b"again" => Kind::Again,
        b"at" => Kind::Prompt,
        b"setting" => Kind::Setting,
        b"sweep" => Kind::Sweep,
        b">" => Kind::Alone,
        _ => going_on(word),
    }
}

impl Play {
    fn new(alloc: Global) -> Result<Play, Fail> {
        let given = Given::new(alloc)?;
        Ok(Play {
            alloc,
            given,
            prompts: PromptList::new(alloc),
            commands: None,
            sweep: None,
            told: Bytes::new(alloc),
        })
    }

    fn echo(&mut self, line: &[u8]) -> Result<(), Fail> {
        self.told.extend(line)?;
        self.told.extend(b"\n")?;
        Ok(())
    }

    /// The commands begin anew on what is given.
    fn again(&mut self) -> Result<(), Fail> {
        self.prompts = PromptList::new(self.alloc);
        self.commands = None;
        Ok(())
    }

    /// A new row, where nothing is given.
    fn begin(&mut self, line: &[u8]) -> Result<(), Fail> {
        self.given = Given::new(self.alloc)?;
        self.again()?;
        self.echo(line)
    }

    fn begin_commands(&mut self) -> Result<(), Fail> {
        let prompts = std::mem::replace(&mut self.prompts, PromptList::new(self.alloc));
        self.commands = Some(Commands::new(self.alloc, &self.given, prompts)?);
        Ok(())
    }

    /// A command, a step, or something that is shown.
    fn play(&mut self, line: &[u8]) -> Result<(), Fail> {
        if self.commands.is_none() {
            self.begin_commands()?;
        }
        match self.commands.as_mut() {
            Some(commands) => commands.line(line, &mut self.told),
            None => Ok(()),
        }
    }

    fn act(&mut self, line: &[u8]) -> Result<(), Fail> {
        self.echo(line)?;
        self.play(line)
    }

    /// A command on what is given, whatever ran before.
    fn alone(&mut self, line: &[u8]) -> Result<(), Fail> {
        self.commands = None;
        self.act(line)
    }

    fn prompt(&mut self, words: &[Bytes]) -> Result<(), Fail> {
        let at = number(word(words, 1)?)?;
        let prompt = prompt(self.alloc, &self.given, at, from(words, 2))?;
        Ok(self.prompts.push(prompt)?)
    }

    fn setting(&mut self, line: &[u8], words: &[Bytes]) -> Result<(), Fail> {
        self.echo(line)?;
        show_setting(self.alloc, words, &mut self.told)
    }

    fn begin_sweep(&mut self, line: &[u8], words: &[Bytes]) -> Result<(), Fail> {
        self.echo(line)?;
        self.sweep = Some(Sweep::new(self.alloc, words)?);
        Ok(())
    }

    /// A line outside of a sweep.
    fn plain(&mut self, line: &[u8], words: &[Bytes]) -> Result<(), Fail> {
        match kind_of(word(words, 0)?) {
            Kind::Row => self.begin(line),
            Kind::Again => self.again(),
            Kind::Prompt => self.prompt(words),
            Kind::Setting => self.setting(line, words),
            Kind::Sweep => self.begin_sweep(line, words),
            Kind::Alone => self.alone(line),
            Kind::Acts => self.act(line),
            Kind::Looks => self.play(line),
            Kind::Gives => self.given.line(words),
        }
    }

    fn end_sweep(&mut self) -> Result<(), Fail> {
        match self.sweep.take() {
            Some(sweep) => sweep.run(&self.given, &mut self.told),
            None => Ok(()),
        }
    }

    /// A line of a sweep, or its end.
    fn swept(&mut self, line: &[u8]) -> Result<(), Fail> {
        if line == b"end".as_slice() {
            return self.end_sweep();
        }
        self.echo(line)?;
        match self.sweep.as_mut() {
            Some(sweep) => sweep.add(line),
            None => Ok(()),
        }
    }

    /// A line of a row. An empty one, or one that begins with `#`, says nothing.
    fn line(&mut self, line: &[u8]) -> Result<(), Fail> {
        if self.sweep.is_some() {
            return self.swept(line);
        }
        if line.is_empty() || line.starts_with(b"#") {
            return Ok(());
        }
        let words = words(self.alloc, line)?;
        self.plain(line, &words)
    }

    fn lines(&mut self, rows: &str) -> Result<(), Fail> {
        for line in rows.lines() {
            self.line(line.as_bytes())?;
        }
        Ok(())
    }
}

/// What these rows tell.
pub(crate) fn told_by(alloc: Global, rows: &str) -> Result<Bytes, Fail> {
    let mut play = Play::new(alloc)?;
    play.lines(rows)?;
    Ok(play.told)
}
