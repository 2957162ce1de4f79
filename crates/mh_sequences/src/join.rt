// Ways to join two sets.
ghost use Rattle.std.specs.Prelude.{◌≡◌, true, false};
ghost use Rattle.mh_sequences.specs.Joins.{joins};

/// Which numbers of two sets stand in a third.
#[derive(Clone, Copy)]
pub enum Join {
    Both,
    Either,
    FirstAlone,
    Second,
}

impl Join {
    pub(crate) fn takes(self, first: bool, second: bool) -> bool
        ensures { result ≡ joins self first second }
    {
        match self {
            Join::Both => first && second,
            Join::Either => first || second,
            Join::FirstAlone => first && !second,
            Join::Second => second,
        }
    }

    /// Whether what the first set has decides alone.
    pub(crate) fn is_settled_by_first(self, first: bool) -> bool
        ensures { result ≡ true → joins self first true ≡ joins self first false }
    {
        self.takes(first, true) == self.takes(first, false)
    }

    /// Whether what the second set has decides alone.
    pub(crate) fn is_settled_by_second(self, second: bool) -> bool
        ensures { result ≡ true → joins self true second ≡ joins self false second }
    {
        self.takes(true, second) == self.takes(false, second)
    }
}
