// `pick`.

pub const PAGE: &str = "\n\
Prints the numbers of the messages that pass the tests, of all messages if none
is named, or brings them into sequences. If none passes it prints 0 and ends
with status 1. Where it would list, it also prints 0 when it is refused or
fails before it has printed a number: 0 is no message, so mh rmm $(mh pick ..)
then removes nothing. In a script look at the status too:

  m=$(mh pick -from ann -before -30) && mh rmm $m

  -from -to -cc -subject -date PATTERN   some field of this name has it
  --NAME PATTERN                         so has a field of any other name
  -search PATTERN                        some line of the message has it
  -before DATE, -after DATE              its date is before or after this one
  -datefield NAME                        the field of the dates that follow
  -not -and -or -lbrace -rbrace          join tests; side by side is -and

  -sequence NAME   the messages come to this sequence
  -zero            it has no others, as without either
  -nozero          it keeps those that it has
  -public          others who use the folder see the sequence, as without either
  -nopublic        it is your own
  -list            the numbers are printed, as they are without -sequence
  -nolist          they are not

A lower-case letter of a pattern is both cases; . is any byte, [abc] one of
these, * any number of what is before it, ^ the begin, $ the end. Fields
and bodies are searched as they are written in the message's file.

A date is today, yesterday, tomorrow, a weekday (the last one before today), -7
(a week ago), 2026-06-01, or '1 jun 2026 9:30 +0200'. Without a time it is
midnight at the begin of the day, without a zone in that of MH_OFFSET.

  mh scan $(mh pick -from ann -after -7)
  mh pick -subject lunch -or -search noon -sequence meals
";
