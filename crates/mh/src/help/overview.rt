// The first page.

pub const PAGE: &str = "\
usage: mh COMMAND [WORDS]

Mail is kept as files: each message is a file whose name is its number, each
folder a directory below the mail directory.

  inc      takes new mail in
  scan     prints a line for each message
  folder   says what is in a folder, and makes it the current one
  pick     finds messages by what they say
  mark     adds messages to sequences, takes them out, lists sequences
  refile   moves messages to other folders
  rmm      removes messages
  anno     puts lines in front of messages
  sortm    puts messages in order
  mhlist   lists the parts of messages
  mhstore  stores parts of messages in files
  mhbuild  makes a message of a draft

A folder is written with a plus sign: +inbox. Messages are numbers, ranges and
names: 3, 5-9, first, last, cur, prev, next, all, last:10, and sequences. A
switch begins with a hyphen and may be cut short: -rev is -reverse.

  mh help COMMAND             tells of one command, as mh COMMAND --help does
  mh help errors              tells what each line of error means
  mh --wait SECONDS COMMAND   waits so long while another command works in the
                              folder
  mh --version                tells the version

Dates are in UTC; for your own time: export MH_OFFSET=$(date +%z)
";
