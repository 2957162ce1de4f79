// Instructions and their jumps, word by word from the end.
ghost use Rattle.std.specs.Prelude.{◌≡◌, IfOk, OnOk};
ghost use Rattle.format_compiler.specs.Grammar.{Format, IsFormat};
ghost use Rattle.format_compiler.specs.Code.{code_of};
ghost use Rattle.format_compiler.specs.Linking.{branched, closed, ended, linked, no_links, tested, top_of, below_top};

use crate::stack::Stack;
use crate::{Instruction, Test, Word};
use mh_base::List;
use std::alloc::{AllocError, Global};

/// How many instructions stand behind the end of a conditional, and how many where its branch before leads
/// if the test fails.
#[derive(Clone, Copy)]
pub(crate) struct Target {
    pub behind: usize,
    pub other: usize,
}

/// The instructions of the words so far, the first on top, and the targets of the conditionals that they
/// end, the innermost on top.
#[derive(Drop)]
pub(crate) struct Linker {
    code: Stack<Instruction>,
    targets: Stack<Target>,
}

fn take_top(targets: &mut Stack<Target>) -> Target
    ensures top { result ≡ top_of targets.old }
    ensures below { targets.new ≡ below_top targets.old }
{
    match targets.pop() {
        Some(target) => target,
        None => Target {
            behind: 0,
            other: 0,
        },
    }
}

impl Linker {
    ghost use Rattle.format_compiler.specs.Linkers.{links_of};

    fn new(alloc: Global) -> Linker
        ensures { links_of result ≡ no_links }
    {
        Linker {
            code: Stack::new(alloc),
            targets: Stack::new(alloc),
        }
    }

    fn end(&mut self) -> Result<(), AllocError>
        ensures { OnOk result (links_of self.new ≡ ended (links_of self.old)) }
    {
        let len = self.code.len();
        self.targets.push(Target {
            behind: len,
            other: len,
        })
    }

    fn test(&mut self, test: Test) -> Result<(), AllocError>
        ensures { OnOk result (links_of self.new ≡ tested test (links_of self.old)) }
    {
        let target = take_top(&mut self.targets);
        let skipped = self.code.len().saturating_sub(target.other);
        self.targets.push(target)?;
        self.code.push(Instruction::Unless { test, skipped })
    }

    fn branch(&mut self) -> Result<(), AllocError>
        ensures { OnOk result (links_of self.new ≡ branched (links_of self.old)) }
    {
        let target = take_top(&mut self.targets);
        let len = self.code.len();
        self.targets.push(Target {
            behind: target.behind,
            other: len,
        })?;
        let count = len.saturating_sub(target.behind);
        if count == 0 {
            return Ok(());
        }
        self.code.push(Instruction::Skip(count))
    }

    fn close(&mut self)
        ensures { links_of self.new ≡ closed (links_of self.old) }
    {
        let _ = take_top(&mut self.targets);
    }

    /// One word more, before the others.
    fn link(&mut self, word: Word) -> Result<(), AllocError>
        ensures { OnOk result (links_of self.new ≡ linked word (links_of self.old)) }
    {
        match word {
            Word::Nothing => Ok(()),
            Word::Print(piece) => self.code.push(Instruction::Print(piece)),
            Word::If(test) => {
                self.test(test)?;
                self.close();
                Ok(())
            }
            Word::ElseIf(test) => {
                self.test(test)?;
                self.branch()
            }
            Word::Else => self.branch(),
            Word::End => self.end(),
        }
    }
}

/// The instructions of words.
pub(crate) fn link_words(alloc: Global, words: List<Word>) -> Result<List<Instruction>, AllocError>
    ensures { (f : Format) → IsFormat words f → IfOk result (λ code. code ≡ code_of f) }
{
    let mut linker = Linker::new(alloc);
    let mut words = words.into_vec();
    while let Some(word) = words.pop() {
        linker.link(word)?;
    }
    let Linker { code, .. } = linker;
    Ok(code.into_list())
}
