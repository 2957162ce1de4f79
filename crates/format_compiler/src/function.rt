// The functions of the format language.
ghost use Rattle.std.specs.Prelude.{◌≡◌};
ghost use Rattle.format_compiler.specs.Functions.{has_result as has_result_of, kind_of, name_of};

/// What argument a function takes.
#[derive(Clone, Copy, Debug, PartialEq, Eq)]
pub enum ArgumentKind {
    Nothing,
    /// Characters as they are written.
    Literal,
    /// Such characters, or nothing.
    LiteralOrNothing,
    /// A whole number of 64 bits.
    Number,
    /// A component.
    Component,
    /// A component, or another function.
    Source,
    /// A component, another function, or nothing.
    SourceOrNothing,
}

/// The functions of the format language, by their names.
#[derive(Clone, Copy, Debug, PartialEq, Eq)]
pub enum Function {
    Msg,
    Size,
    Cur,
    Unseen,
    Width,
    Charleft,
    Timenow,
    Me,
    Num,
    Lit,
    Eq,
    Ne,
    Gt,
    Plus,
    Divide,
    Modulo,
    Match,
    Amatch,
    Strlen,
    Null,
    Nonnull,
    Zero,
    Nonzero,
    Void,
    Comp,
    Compval,
    Trim,
    Unquote,
    Decode,
    Putstr,
    Putstrf,
    Putnum,
    Putnumf,
    Putlit,
    Sec,
    Min,
    Hour,
    Mday,
    Mon,
    Year,
    Wday,
    Day,
    Weekday,
    Month,
    Lmonth,
    Tzone,
    Clock,
    Rclock,
    Tws,
    Nodate,
    Friendly,
    Addr,
    Pers,
    Note,
    Mbox,
    Host,
}

/// All functions.
pub const FUNCTIONS: [Function; 56] = [
    Function::Msg,
    Function::Size,
    Function::Cur,
    Function::Unseen,
    Function::Width,
    Function::Charleft,
    Function::Timenow,
    Function::Me,
    Function::Num,
    Function::Lit,
    Function::Eq,
    Function::Ne,
    Function::Gt,
    Function::Plus,
    Function::Divide,
    Function::Modulo,
    Function::Match,
    Function::Amatch,
    Function::Strlen,
    Function::Null,
    Function::Nonnull,
    Function::Zero,
    Function::Nonzero,
    Function::Void,
    Function::Comp,
    Function::Compval,
    Function::Trim,
    Function::Unquote,
    Function::Decode,
    Function::Putstr,
    Function::Putstrf,
    Function::Putnum,
    Function::Putnumf,
    Function::Putlit,
    Function::Sec,
    Function::Min,
    Function::Hour,
    Function::Mday,
    Function::Mon,
    Function::Year,
    Function::Wday,
    Function::Day,
    Function::Weekday,
    Function::Month,
    Function::Lmonth,
    Function::Tzone,
    Function::Clock,
    Function::Rclock,
    Function::Tws,
    Function::Nodate,
    Function::Friendly,
    Function::Addr,
    Function::Pers,
    Function::Note,
    Function::Mbox,
    Function::Host,
];

impl Function {
    /// The name by which formats call it.
    pub fn name(self) -> &'static str
        ensures { result.now ≡ name_of self }
    {
        match self {
            Function::Msg => "msg",
            Function::Size => "size",
            Function::Cur => "cur",
            Function::Unseen => "unseen",
            Function::Width => "width",
            Function::Charleft => "charleft",
            Function::Timenow => "timenow",
            Function::Me => "me",
            Function::Num => "num",
            Function::Lit => "lit",
            Function::Eq => "eq",
            Function::Ne => "ne",
            Function::Gt => "gt",
            Function::Plus => "plus",
            Function::Divide => "divide",
            Function::Modulo => "modulo",
            Function::Match => "match",
            Function::Amatch => "amatch",
            Function::Strlen => "strlen",
            Function::Null => "null",
            Function::Nonnull => "nonnull",
            Function::Zero => "zero",
            Function::Nonzero => "nonzero",
            Function::Void => "void",
            Function::Comp => "comp",
            Function::Compval => "compval",
            Function::Trim => "trim",
            Function::Unquote => "unquote",
            Function::Decode => "decode",
            Function::Putstr => "putstr",
            Function::Putstrf => "putstrf",
            Function::Putnum => "putnum",
            Function::Putnumf => "putnumf",
            Function::Putlit => "putlit",
            Function::Sec => "sec",
            Function::Min => "min",
            Function::Hour => "hour",
            Function::Mday => "mday",
            Function::Mon => "mon",
            Function::Year => "year",
            Function::Wday => "wday",
            Function::Day => "day",
            Function::Weekday => "weekday",
            Function::Month => "month",
            Function::Lmonth => "lmonth",
            Function::Tzone => "tzone",
            Function::Clock => "clock",
            Function::Rclock => "rclock",
            Function::Tws => "tws",
            Function::Nodate => "nodate",
            Function::Friendly => "friendly",
            Function::Addr => "addr",
            Function::Pers => "pers",
            Function::Note => "note",
            Function::Mbox => "mbox",
            Function::Host => "host",
        }
    }

    pub fn kind(self) -> ArgumentKind
        ensures { result ≡ kind_of self }
    {
        match self {
            Function::Msg
            | Function::Size
            | Function::Cur
            | Function::Unseen
            | Function::Width
            | Function::Charleft
            | Function::Timenow
            | Function::Me
            | Function::Strlen => ArgumentKind::Nothing,
            Function::Num
            | Function::Eq
            | Function::Ne
            | Function::Gt
            | Function::Plus
            | Function::Divide
            | Function::Modulo => ArgumentKind::Number,
            Function::Lit => ArgumentKind::LiteralOrNothing,
            Function::Match | Function::Amatch => ArgumentKind::Literal,
            Function::Null
            | Function::Nonnull
            | Function::Zero
            | Function::Nonzero
            | Function::Trim
            | Function::Unquote
            | Function::Decode
            | Function::Putstr
            | Function::Putstrf
            | Function::Putnum
            | Function::Putnumf
            | Function::Putlit => ArgumentKind::SourceOrNothing,
            Function::Void => ArgumentKind::Source,
            Function::Comp
            | Function::Compval
            | Function::Sec
            | Function::Min
            | Function::Hour
            | Function::Mday
            | Function::Mon
            | Function::Year
            | Function::Wday
            | Function::Day
            | Function::Weekday
            | Function::Month
            | Function::Lmonth
            | Function::Tzone
            | Function::Clock
            | Function::Rclock
            | Function::Tws
            | Function::Nodate
            | Function::Friendly
            | Function::Addr
            | Function::Pers
            | Function::Note
            | Function::Mbox
            | Function::Host => ArgumentKind::Component,
        }
    }

    /// Whether it sets the number or the text to its result.
    pub fn has_result(self) -> bool
        ensures { result ≡ has_result_of self }
    {
        !matches!(
            self,
            Function::Void
                | Function::Putstr
                | Function::Putstrf
                | Function::Putnum
                | Function::Putnumf
                | Function::Putlit
        )
    }
}
