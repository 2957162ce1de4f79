// `rmm`.

pub const PAGE: &str = "\n\
Removes messages, the current one if none is named. Each becomes a file that
has a comma before its number, which no command reads, and leaves all sequences
of the folder.

  -unlink     no such file stays
  -nounlink   it stays, as without either

  mh rmm 3 5-9
";
