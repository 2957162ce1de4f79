// `mhlist`.

pub const PAGE: &str = "\n\
Lists the parts of messages, of the current one if none is named: for each part
a row with the message's number, where the part is, its type, how many
bytes it has when it is decoded, and its description. The message itself is -,
its second part 2, the first one within that 2.1, and so on.

  -part PART   that part alone; given again another one too

Behind a row is [unclosed] where the end of a multipart is missing,
[no boundary] where its parts can't be told, and [too deep] where parts lie
deeper than 64.

  mh mhlist
  mh mhlist 3-5
  mh mhlist last -part 2
";
