// The state of a line whose text is put on one line no sooner than it must be: most bodies are longer than what a line
// shows of them.
ghost use Rattle.std.specs.Prelude.{◌≡◌, ◌≤◌, not, false, IfOk, OnOk};
ghost use Rattle.std.specs.List.{list_any};
ghost use Rattle.std.specs.Str.{chars};
ghost use Rattle.line_rows.specs.Columns.{columns_of};
ghost use Rattle.line_rows.specs.Fields.{printed_text};
ghost use Rattle.mail_text.specs.Stripping.{is_gap as is_a_gap};
ghost use Rattle.format_run.specs.Answers.{is_empty as is_empty_of};
ghost use Rattle.format_run.specs.Lazy.{meant};
ghost use Rattle.format_run.specs.Stepping.{adding, holds, printed, start_of, tested, weighed, with_text};
ghost use Rattle.format_run.specs.Values.{value_of};

use crate::View;
use crate::characters::is_empty;
use crate::numbers::{is_not_zero, truth};
use crate::state::LineState;
use crate::values::raw_value;
use format_compiler::{Piece, Test, Width};
use mail_text::{is_gap, strip};
use mh_base::Text;
use std::alloc::{AllocError, Global};

/// A state. Where it is raw, its text is meant with single spaces, and none at its ends.
#[derive(Drop)]
pub(crate) struct LazyState {
    state: LineState,
    raw: bool,
}

/// Whether a text has anything but gaps.
fn has_word(text: &str) -> bool
    ensures { result ≡ list_any (λ c. not (is_a_gap c)) (chars text.now) }
{
    text.chars().any(|c| !is_gap(c))
}

impl LazyState {
    /// The beginning of a line of so many columns at most.
    pub(crate) fn new(alloc: Global, width: u32) -> LazyState
        ensures { meant result ≡ start_of width }
    {
        LazyState {
            state: LineState::new(alloc, width),
            raw: false,
        }
    }

    /// Puts the text on one line, as functions see it.
    fn tighten(&mut self, alloc: Global) -> Result<(), AllocError>
        ensures state { OnOk result (self.new.state ≡ meant self.old) }
        ensures tight { OnOk result (self.new.raw ≡ false) }
    {
        if self.raw {
            self.state.text = strip(alloc, &self.state.text)?;
            self.raw = false;
        }
        Ok(())
    }

    /// Sets the text to the value of the component of this name.
    fn set_text(&mut self, alloc: Global, view: &View, name: &Text) -> Result<(), AllocError>
        ensures { OnOk result (meant self.new ≡ with_text (value_of name.now view.now.message) (meant self.old)) }
    {
        let value = raw_value(alloc, &view.message, name)?;
        self.state.text = value.text;
        self.raw = value.raw;
        Ok(())
    }

    fn print_text(&mut self, alloc: Global, width: Option<Width>) -> Result<(), AllocError>
        ensures { OnOk result (meant self.new ≡ adding (printed_text width (meant self.old).text) (meant self.old)) }
    {
        self.state.print_text(alloc, width)
    }

    /// Prints a part of a format.
    #[tactic(auto, unfolding(crate::specs::Stepping::printed))]
    pub(crate) fn print(
        &mut self,
        alloc: Global,
        view: &View,
        piece: &Piece,
    ) -> Result<(), AllocError>
        ensures { OnOk result (meant self.new ≡ printed view.now piece.now (meant self.old)) }
    {
        match piece {
            Piece::Character(c) => self.state.print_character(*c),
            Piece::Component { width, name } => {
                self.set_text(alloc, view, name)?;
                self.print_text(alloc, *width)
            }
            Piece::Call { .. } => {
                self.tighten(alloc)?;
                self.state.print(alloc, view, piece)
            }
        }
    }

    #[tactic(auto, using(crate::proofs::LazyStates::some_word))]
    fn has_text(&self) -> bool
        ensures { result ≡ not (is_empty_of (meant self.now).text) }
    {
        if self.raw {
            has_word(self.state.text.as_str())
        } else {
            !is_empty(&self.state.text)
        }
    }

    /// Sets the number to 1 where the text isn't empty, and else to 0.
    fn weigh(&mut self)
        ensures { meant self.new ≡ weighed (meant self.old) }
    {
        self.state.number = truth(self.has_text());
    }

    /// Evaluates a test, which sets the number.
    #[tactic(auto, unfolding(crate::specs::Stepping::tested))]
    fn evaluate_test(&mut self, alloc: Global, view: &View, test: &Test) -> Result<(), AllocError>
        ensures { OnOk result (meant self.new ≡ tested view.now test.now (meant self.old)) }
    {
        match test {
            Test::Component(name) => {
                self.set_text(alloc, view, name)?;
                self.weigh();
                Ok(())
            }
            Test::Call(_) => {
                self.tighten(alloc)?;
                self.state.test(alloc, view, test)?;
                Ok(())
            }
        }
    }

    /// Evaluates a test, and says whether it holds: whether the number isn't 0 then.
    pub(crate) fn test(
        &mut self,
        alloc: Global,
        view: &View,
        test: &Test,
    ) -> Result<bool, AllocError>
        ensures state { IfOk result (λ _. meant self.new ≡ tested view.now test.now (meant self.old)) }
        ensures answer { IfOk result (λ is. is ≡ holds (tested view.now test.now (meant self.old))) }
    {
        self.evaluate_test(alloc, view, test)?;
        Ok(is_not_zero(self.state.number))
    }

    /// The line so far.
    pub(crate) fn into_text(self) -> Text
        ensures value { result ≡ (meant self).row.characters }
        ensures within { columns_of result ≤ (meant self).row.width }
    {
        let LazyState { state, .. } = self;
        state.into_text()
    }
}
