// `anno`.

pub const PAGE: &str = "\n\
Puts lines in front of messages, of the current one if none is named: a field
of this name with the date and time of now, and one with the text.

  -component NAME   the field's name; there must be one
  -text TEXT        a text of one line
  -date             the line with the date comes first, as without either
  -nodate           there is none; then there must be a text

Each message keeps its number and its sequences.

  mh anno -component Replied
  mh anno 3 5-9 -component Note -text 'ask Bob' -nodate
";
