// `sortm`.

pub const PAGE: &str = "\n\
Puts messages in order, all of the folder if none is named: the first of them
gets the least of the numbers that they have, and so on. Sequences and the
current message go with them. Of messages that come together the
one with the lesser number stays first.

  -datefield NAME   by the date in the field of this name; without either by
                    that in Date. A message without a date goes with the one
                    before it.
  -textfield NAME   by the letters and digits of the field of this name, without
                    regard to case; of a subject without Re: in front

  mh sortm
  mh sortm 1-20 -textfield subject
";
