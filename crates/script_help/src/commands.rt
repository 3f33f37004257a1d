//! The list of the commands.
ghost use Rattle.std.specs.Prelude.{◌≡◌};
ghost use Rattle.script_help.specs.Commands.{command_list};

const COMMANDS: &str = "\
Commands of a script, one a line; blank lines and lines that begin with # are passed over:
  rule                      takes the rule of a .rule file: the lines up to one that is just `end`
  start rle                 takes the pattern of an RLE text, the lines up to `end`, as the start
  start mc                  takes that of a macrocell text
  set X Y S ..              sets cells of the start to states, each by three numbers
  at G set X Y S ..         adds an intervention: these cells are set at generation G
  every K G H set X Y S ..  adds one that acts at generation G and every K later, up to H
  change ID G set X Y S ..  lets an intervention act once, at generation G, with these cells
  change ID every K G H set X Y S ..
                            lets it act at generation G and every K later, up to H
  drop ID                   removes an intervention
  mark G counts             adds a bookmark at generation G, of the number of cells of each state
  mark G rle                one of the pattern as RLE
  mark G mc                 one of the pattern as macrocell text
  mark G window X Y W H     one of the states of W by H cells, from (X, Y) to the right and down
  move ID G                 moves a bookmark to generation G
  unmark ID                 removes a bookmark
  branch B G                adds a branch of history, which leaves branch B after generation G
  unbranch B                removes a branch that nothing stands in
  on B at ..                does so in branch B, as do `on B every ..` and `on B mark ..`; without `on`
                            it is branch 0
  work                      lets the workers begin and doesn't wait for them
  settle                    computes the texts of all bookmarks
  show ID                   does so, and then shows the text of a bookmark
  peek ID                   shows it as far as it is known
  poll                      takes what the workers have computed and lets them go on
  list                      lists the branches, interventions and bookmarks
  script                    writes the document as a script that makes it anew
  help                      writes this list
  quit                      ends the script
";

/// The list of the commands, in lines that each end.
pub fn command_list() -> &'static str
    ensures { result.now ≡ command_list }
{
    COMMANDS
}
