// `mhbuild`.

pub const PAGE: &str = "\n\
Makes a message of a draft. With a name it reads that file of the current
directory: the message takes the name, and the draft stays beside it as
,NAME.orig. With - it reads the input, and writes the message to the output.

A draft is a message whose body is text, and lines that begin with #:

  #begin [KIND]   opens a multipart: mixed, as without a kind, alternative,
                  parallel or digest
  #end            closes it
  #forw [+folder] [messages]
                  puts messages in, the current one if none is named
  #TYPE/SUBTYPE; ATTR=VALUE (COMMENT) <ID> [DESCRIPTION] {DISPOSITION} FILE
                  puts a file in; what is between type and file may be left out
  ##TEXT          the line #TEXT

  mh mhbuild letter
  mh mhbuild - < letter > message
";
