// Where the bytes of a drop that were read so far end.
ghost use Rattle.std.specs.Prelude.{◌≡◌};
ghost use Rattle.mbox_drop.specs.Places.{grown, first_turn, start_turn, middle_turn, broken_turn, blank_turn, turn, is_inside, is_lost, is_middle, stage_of, place_after, ended};

/// How much of `From ` a line has so far, where it has nothing else.
#[derive(Clone, Copy)]
pub enum Match {
    Nothing,
    F,
    Fr,
    Fro,
    From,
}

/// What one more byte makes of it.
#[derive(Clone, Copy)]
pub enum Growth {
    More(Match),
    Whole,
    Broken,
}

/// Where a reader of a drop stands.
#[derive(Clone, Copy)]
pub enum DropState {
    /// In the first line, which is to begin a separator.
    First(Match),
    /// The bytes begin with no separator.
    Lost,
    /// In a separator line, after its `From `.
    Separator,
    /// At the start of a line of a message. The line before is not empty.
    Start,
    /// After a CR that begins a line.
    Return,
    /// In another line of a message.
    Middle,
    /// After an empty line, and the beginning of a separator.
    Blank(Match),
}

/// What the bytes of a reader are.
#[derive(Clone, Copy)]
pub enum Stage {
    /// None.
    Unread,
    /// No drop, or not yet.
    NoDrop,
    /// A drop with a message.
    Begun,
}

/// What the next byte is.
#[derive(Clone, Copy)]
pub enum Turn {
    /// A byte of the message.
    Joins(DropState),
    /// A byte of the message, which may begin an empty line.
    Empties(DropState),
    /// The last byte of the `From ` of a later separator.
    Begins,
    /// A byte before the message.
    Passes(DropState),
}

impl Match {
    #[inline(always)]
    fn grown(self, byte: u8) -> Growth
        ensures { result ≡ grown self byte }
    {
        match (self, byte) {
            (Match::Nothing, b'F') => Growth::More(Match::F),
            (Match::F, b'r') => Growth::More(Match::Fr),
            (Match::Fr, b'o') => Growth::More(Match::Fro),
            (Match::Fro, b'm') => Growth::More(Match::From),
            (Match::From, b' ') => Growth::Whole,
            _ => Growth::Broken,
        }
    }
}

#[inline(always)]
fn first_turn(growth: Growth) -> Turn
    ensures { result ≡ first_turn growth }
{
    match growth {
        Growth::More(start) => Turn::Passes(DropState::First(start)),
        Growth::Whole => Turn::Passes(DropState::Separator),
        Growth::Broken => Turn::Passes(DropState::Lost),
    }
}

#[inline(always)]
fn start_turn(byte: u8) -> Turn
    ensures { result ≡ start_turn byte }
{
    match byte {
        b'\n' => Turn::Empties(DropState::Blank(Match::Nothing)),
        b'\r' => Turn::Empties(DropState::Return),
        _ => Turn::Joins(DropState::Middle),
    }
}

#[inline(always)]
fn middle_turn(byte: u8) -> Turn
    ensures { result ≡ middle_turn byte }
{
    if byte == b'\n' {
        Turn::Joins(DropState::Start)
    } else {
        Turn::Joins(DropState::Middle)
    }
}

#[inline(always)]
fn broken_turn(start: Match, byte: u8) -> Turn
    ensures { result ≡ broken_turn start byte }
{
    match start {
        Match::Nothing => start_turn(byte),
        Match::F | Match::Fr | Match::Fro | Match::From => middle_turn(byte),
    }
}

#[inline(always)]
fn blank_turn(start: Match, byte: u8) -> Turn
    ensures { result ≡ blank_turn start byte (grown start byte) }
{
    match start.grown(byte) {
        Growth::More(more) => Turn::Joins(DropState::Blank(more)),
        Growth::Whole => Turn::Begins,
        Growth::Broken => broken_turn(start, byte),
    }
}

impl DropState {
    #[inline(always)]
    pub fn turn(self, byte: u8) -> Turn
        ensures { result ≡ turn self byte }
    {
        match self {
            DropState::First(start) => first_turn(start.grown(byte)),
            DropState::Lost => Turn::Passes(DropState::Lost),
            DropState::Separator if byte == b'\n' => Turn::Passes(DropState::Start),
            DropState::Separator => Turn::Passes(DropState::Separator),
            DropState::Start => start_turn(byte),
            DropState::Return if byte == b'\n' => Turn::Joins(DropState::Blank(Match::Nothing)),
            DropState::Return => Turn::Joins(DropState::Middle),
            DropState::Middle => middle_turn(byte),
            DropState::Blank(start) => blank_turn(start, byte),
        }
    }

    pub fn stage(self) -> Stage
        ensures { result ≡ stage_of self }
    {
        match self {
            DropState::First(Match::Nothing) => Stage::Unread,
            DropState::First(Match::F | Match::Fr | Match::Fro | Match::From) | DropState::Lost => {
                Stage::NoDrop
            }
            DropState::Separator
            | DropState::Start
            | DropState::Return
            | DropState::Middle
            | DropState::Blank(_) => { Stage::Begun }
        }
    }

    #[inline(always)]
    pub fn is_middle(self) -> bool
        ensures { result ≡ is_middle self }
    {
        matches!(self, DropState::Middle)
    }

    pub fn is_lost(self) -> bool
        ensures { result ≡ is_lost self }
    {
        matches!(self, DropState::Lost)
    }

    pub fn is_inside(self) -> bool
        ensures { result ≡ is_inside self }
    {
        match self {
            DropState::First(_) | DropState::Lost | DropState::Separator => false,
            DropState::Start | DropState::Return | DropState::Middle | DropState::Blank(_) => true,
        }
    }

    /// The length of the message if the bytes end here.
    pub fn ended(self, body: usize, whole: usize) -> usize
        ensures { result ≡ ended self body whole }
    {
        match self {
            DropState::Blank(Match::Nothing) => body,
            _ => whole,
        }
    }
}

impl Turn {
    pub fn place(self) -> DropState
        ensures { result ≡ place_after self }
    {
        match self {
            Turn::Joins(place) | Turn::Empties(place) | Turn::Passes(place) => place,
            Turn::Begins => DropState::Separator,
        }
    }
}
