// `mhstore`.

pub const PAGE: &str = "\n\
Stores parts of messages, of the current one if none is named, in files of the
current directory, and prints a line for each. Without -part these are all that
hold no other parts. A file's name is the number of the message, where the part
is and its type, as in 5.2.plain; mh mhlist shows which parts there are.

  -part PART        that part alone; given again another one too
  -clobber always   replaces a file that is there
  -clobber never    refuses to, as without either

  mh mhstore
  mh mhstore last -part 2
";
