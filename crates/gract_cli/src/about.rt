ghost use Rattle.std.specs.Prelude.{◌≡◌, None, MatchOption, Some};
ghost use Rattle.gract_cli.specs.About.{about_of};

/// What `gract --version` prints.
const VERSION: &str = "gract 0.1.0\n";

/// What `gract --help` prints.
const HELP: &str = "\
gract answers questions about the tracks of moving objects.

Commands
  gract once CSV CELL TICK PERIOD         answers questions about a CSV file
  gract build CSV INDEX CELL TICK PERIOD  saves the index of a CSV file as INDEX
  gract ask INDEX                         answers questions from an index
  gract ask INDEX TAIL                    answers them from an index and a CSV
                                          file of later rows
  gract sample OBJECTS INSTANTS SEED PERIOD
                                          sums up an index of made-up rows
  gract upgrade OLD NEW                   saves an index OLD as NEW, in the
                                          newest version of its format
  gract merge A B OUT                     saves the index of the rows of two
                                          indexes A and B as OUT
  gract extend INDEX TAIL OUT             saves the index of the rows of an
                                          index and a CSV file of later rows
                                          as OUT
  gract --help, gract --version           print this text, and the version

CSV has a row OBJECT,TIME,X,Y in each line, in whole numbers. A first line
object,instant,x,y is skipped.

  CELL    how many units of x and y a cell is wide, from 1 to 1073741824
  TICK    how many units of time an instant lasts, from 1 to 1073741824
  PERIOD  how many instants there are from one snapshot of all places to the
          next, from 1 to 4194304; it changes size and speed, and of the
          replies only that to info

Each row counts for the cell and the instant that it lies in, and of an object's
rows in one instant the last in the file counts. Questions name cells and
instants: divide x and y by CELL and a time by TICK, rounding down.

Questions, each a line of standard input, and the lines of their replies
  position OBJECT INSTANT    X Y: where the object was
  path OBJECT FROM TO        T X Y: where it was at each instant
  slice INSTANT REGION       OBJECT X Y: who was in the region
  interval FROM TO REGION    OBJECT T X Y: who was in it, and where first
  nearest COUNT INSTANT X Y  OBJECT X Y D: who was nearest, by squared distance
  meet A B FROM TO D         T XA YA XB YB: when A and B were first within D
  info                       NAME N: facts of the index
  hold SLOT OBJECT FROM TO   holds a path in a slot from 0 to 15
  more SLOT COUNT            T X Y: the next so many places of a held path
  free SLOT                  lets a held path go

REGION is rect X1 Y1 X2 Y2, with all its borders, or disc X Y R, or any N and
then N of these, at most 16. A reply ends with ok N, where N lines came before.
A line that is no question is answered by bad and its fault.

Where a limit is passed
  csv, rows  cut the file into parts, such as months, and index each
  objects    index groups of objects apart
  span       take a greater TICK, or cut the file into parts
  extent     take a greater CELL
  blocks     take a greater PERIOD or TICK
  symbols    take a greater TICK, or cut the file into parts; a smaller PERIOD
             helps where objects are often away
  index      the file is none that build has saved
  questions  ask in several runs
  base       an index is none that build has saved

Statuses: 0 done, 2 a faulty command line, 3 a faulty CSV file or no row,
4 a limit, 5 no index file, 6 a file or a stream that failed, 7 no memory,
8 two indexes that differ in CELL, TICK or PERIOD, 9 two that have an object
in common.
";

/// The text that the command words ask for, if they are `--help` or `--version` alone.
pub fn about_text(words: &[&str]) -> Option<&'static str>
    ensures { MatchOption result (about_of words.now ≡ None) (λ text. about_of words.now ≡ Some text.now) }
{
    let [word] = words else {
        return None;
    };
    match *word {
        "--help" => Some(HELP),
        "--version" => Some(VERSION),
        _ => None,
    }
}
