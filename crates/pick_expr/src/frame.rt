// What words come to between braces.
ghost use Rattle.std.specs.Prelude.{◌≡◌, ◌||◌, not};
ghost use Rattle.pick_expr.specs.Skipping.{is_settled};
ghost use Rattle.pick_expr.specs.Values.{absorbed, fresh, next_choice as next_choice_of};

/// Whether an alternative before holds, whether what is joined so far holds, and whether the operand
/// to come is negated.
#[derive(Clone, Copy)]
pub(crate) struct Frame {
    pub any: bool,
    pub all: bool,
    pub negated: bool,
}

impl Frame {
    pub fn new() -> Frame
        ensures { result ≡ fresh }
    {
        Frame {
            any: false,
            all: true,
            negated: false,
        }
    }

    pub fn value(self) -> bool
        ensures { result ≡ (self.any || self.all) }
    {
        self.any || self.all
    }

    /// Whether what comes next, up to `-or`, no longer counts.
    pub fn is_settled(self) -> bool
        ensures { result ≡ is_settled self }
    {
        self.any || !self.all
    }

    /// Behind an operand of this value.
    pub fn absorb(self, value: bool) -> Frame
        ensures { result ≡ absorbed value self }
    {
        Frame {
            any: self.any,
            all: self.all && value != self.negated,
            negated: false,
        }
    }

    /// Behind `-or`.
    pub fn next_choice(self) -> Frame
        ensures { result ≡ next_choice_of self }
    {
        Frame {
            any: self.any || self.all,
            all: true,
            negated: self.negated,
        }
    }

    /// Behind `-not`.
    pub fn negate(self) -> Frame
        ensures { result ≡ record self { negated = not self.negated } }
    {
        Frame {
            any: self.any,
            all: self.all,
            negated: !self.negated,
        }
    }
}
