// `scan`.

pub const PAGE: &str = "\n\
Prints a line for each of the messages, all of them if none is named, and makes
the folder the current one. Without a folder it is the current one.

  -format TEXT     what a line shows; without it the number, + at the current
                   message, the date, who sent it, the subject, the body's begin
  -form FILE       a file with the format; of both the last counts
  -width COLUMNS   how wide a line may be, 1 to 10000; 80 without it
  -reverse         the last message comes first
  -noreverse       the first message comes first, as without either

  mh scan +inbox last:10
  mh scan -width $COLUMNS
  mh scan -format '%(msg) %{subject}' unseen
";
