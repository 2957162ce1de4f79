// `mark`.

pub const PAGE: &str = "\n\
Adds messages to sequences, the current one if none is named, takes them out,
or lists sequences.

  -sequence NAME   a sequence; there may be several
  -add             the messages come to them, as they do with a -sequence
  -delete          the messages leave them
  -list            the sequences are listed, as they are without -sequence
  -zero            with -add they have no others; with -delete they have all
                   others
  -nozero          they keep what they have, as without either
  -public          others who use the folder see them, as without either
  -nopublic        they are your own

  mh mark -sequence todo 3 5-9
  mh mark -sequence todo -delete all
  mh mark
";
