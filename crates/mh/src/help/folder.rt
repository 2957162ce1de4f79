// `folder`.

pub const PAGE: &str = "\n\
Prints a line about a folder: how many messages it has, the least and the
greatest of their numbers, and the current message; and makes the folder the
current one. Without a folder it is the current one: that of the last command.

A message becomes the folder's current one; of several that the word names it
is the least. Without one nothing changes in the folder.

  -pack     renumbers its messages from 1 on, in their order; sequences and the
            current message go with them
  -nopack   leaves the numbers, as without either

  mh folder +inbox
  mh folder next
  mh folder -pack
";
