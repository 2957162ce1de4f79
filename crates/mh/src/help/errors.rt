// The lines of errors.

pub const PAGE: &str = "\
Where a command does not end well, it says so in a line of error output, at
times with a second line that says more, and its status tells how it ended:

0  done
1  refused: nothing is wrong with the mailbox, but with what was asked of it

   no command, unknown command        mh help lists the commands
   unknown switch, ambiguous switch   mh help COMMAND lists the switches
   missing value, bad value           so too; a switch takes the next word
   missing word, unexpected word      so too
   the profile's entry \"NAME\" has this word
                                      the word is in ~/.mh_profile
   no help on WORD                    mh help lists the commands
   bad folder name                    as in +inbox or +work/todo
   no such folder                     mh inc and mh refile make folders
   bad message name                   a number, a range, a name such as last:5,
                                      or a sequence
   no such message                    mh scan shows which there are
   no messages in range               so too
   no messages in sequence            mh mark lists the sequences; a folder has
                                      a plus sign before it: mh scan +inbox
   bad sequence name                  letters first, then letters and digits;
                                      not cur, all, first, last, new, prev or
                                      next
   bad format at byte N               of -format or of the file of -form,
                                      counted from 0
   bad date, bad expression           mh help pick
   no messages match                  no message passed the tests of mh pick
   no mail to incorporate             the mail file is empty, or isn't there
   not a mail drop                    it doesn't begin with a `From ` line
   same folder                        messages are in this folder
   folder is full                     it has no number left up to 999999
   bad draft at line N                mh help mhbuild; counted from 1
   too large                          a message or text is above its limit
   mail drop has grown                new mail came meanwhile; nothing is lost:
                                      the mail file was not emptied, so mh inc
                                      takes its messages in once more
   mail drop has changed              another program took mail out of it
   no such file                       of a name that was given, as to -form or
                                      in a draft
   no such part                       mh mhlist shows which there are
   file exists                        -clobber always replaces it

2  fault: a file, the input or the output could not be read or written. Nothing
   that stood is lost; run the command again when it is mended. A second line
   may name the file.

   no setting                         HOME is no UTF-8 text, MH_OFFSET is beyond
                                      +2359, or there is no /dev/urandom
   word N is no UTF-8 text            the Nth word behind mh
3  locked: another command works in this folder. Try again, or have it wait:
   mh --wait 10 COMMAND
4  changed meanwhile: another command took the message or the name away
5  no memory

When the machine stops in the middle of a command, just go on: the next command
that changes the folder puts back what was held aside.
";
