// `refile`.

pub const PAGE: &str = "\n\
Moves messages, the current one if none is named, to these folders, which are
made where they are missing. Each gets a file of its own in each of them, above
its highest number, and leaves its folder once all are safe on disk.

  -src +folder   the folder that they leave, which becomes the current one;
                 without it it is the current one
  -link          they stay in their folder too
  -nolink        they leave it, as without either

  mh refile 3 5-9 +meals
  mh refile -src +inbox last +meals +todo
";
