// `inc`.

pub const PAGE: &str = "\n\
Takes new mail in: each message of the mail file becomes a file of the folder,
above its highest number. A message's line is printed once it is safe on disk.
The folder is made where it is missing; without one it is the profile's Inbox,
or +inbox. The mail file is the profile's MailDrop, below the home directory,
or /var/mail/ and the user's name.

  -file DROP       another mail file, which stays as it is without -truncate
  -truncate        the mail file is emptied when all of it is stored, as it is
                   without -file
  -notruncate      the mail file stays as it is
  -changecur       the first new message becomes the current one, as without
                   either
  -nochangecur     the current message stays
  -format TEXT     what a line shows, as of mh scan
  -form FILE       a file with the format; of both the last counts
  -width COLUMNS   how wide a line may be, 1 to 10000; 80 without it
  -silent          nothing is printed
  -nosilent        lines are printed, as without either

New messages come to the sequences that Unseen-Sequence of the profile names.
";
