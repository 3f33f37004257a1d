//! What the help says behind the commands of a script.

/// The exit statuses and an example.
pub(crate) const STATUSES_AND_EXAMPLE: &str = "\
Exit status:
  0  the script was answered, also where commands were refused, or help or the version was written
  1  standard input or standard output failed
  2  the words of the command line are refused
  3  memory ran out at the start, or a worker's thread was refused

Example: the cells of each state at generation 1000, from a rule file and a pattern file:
  { echo rule; cat a.rule; echo; echo end
    echo start rle; cat a.rle; echo; echo end
    echo mark 1000 counts; echo show 1; } | desk
";
