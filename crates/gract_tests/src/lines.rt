use crate::script::{ONCE, Part};

/// Calls with the lines of a row, which come in pieces of one byte, of two and of three, and all at once.
const CALLS: &str = "sink 32768
    asks 1 $0
    run once t.csv 1 1 4
    ends 0
    said $1
    sink 32768
    asks 2 $0
    run once t.csv 1 1 4
    ends 0
    said $1
    sink 32768
    asks 3 $0
    run once t.csv 1 1 4
    ends 0
    said $1
    sink 32768
    asks 4096 $0
    run once t.csv 1 1 4
    ends 0
    said $1";

/// Lines over one row, object 7 at the instant 2 in the cell (12, -11), and what is said of them.
const LINES: Part = (
    CALLS,
    "position 7 2| ; 12 -11|ok 1|
    position 7 1|position 9 2 ; ok 0|ok 0|
    path 7 2 2| ; 2 12 -11|ok 1|
    path 7 -9 9|path 7 3 9| ; 2 12 -11|ok 1|ok 0|
    | \t\r|\tpath  +7 \r 002 2 \r| ; 2 12 -11|ok 1|
    | info\r| ; objects 1|first 2|last 2|period 4|cell 1|tick 1|height 1|alphabet 0|rules 0|log 0|depth 0|ok 11|
    slice 2 rect 12 -11 12 -11|slice 2 disc 12 -11 0|slice 2 rect 13 -11 12 -11| ; 7 12 -11|ok 1|7 12 -11|ok 1|ok 0|
    interval 0 9 disc 0 0 17|interval 0 9 disc 0 0 16|interval 3 9 rect 0 -99 99 99| ; 7 2 12 -11|ok 1|ok 0|ok 0|
    nearest 4 2 0 0|nearest 0 2 0 0| ; 7 12 -11 265|ok 1|ok 0|
    meet 7 7 0 9 0|meet 7 9 0 9 4398046511104|meet 7 7 3 9 0| ; 2 12 -11 12 -11|ok 1|ok 0|ok 0|
    meet 1 2 0 9|meet 1 2 0 9 3 0|meet a 2 0 9 -1|meet 1 2 0 9 -1|meet 1 2 0 9 4398046511105|meet 1 4294967296 0 9 3| ; \
        bad count|bad count|bad number 2|bad range 6|bad range 6|bad range 3|
    Position 7 2|slice 0 ring 1 2 3|slice x ring|interval 0 rect 1 1 2 2| ; bad word|bad word|bad word|bad word|
    slice 0|slice 0 rect 1 2 3|nearest 1 0 0|slice x disc 0 0|position 7|path 7 2|position 7 2 1|info x| ; \
        bad count|bad count|bad count|bad count|bad count|bad count|bad count|bad count|
    position a 2|path 7 2 --1|path 7 2x 2x|nearest a 0 0 0| ; bad number 2|bad number 4|bad number 3|bad number 2|
    position -1 x|position 4294967296 2|path 7 0 2199023255553|slice 0 disc 0 0 -1|slice 0 disc 0 0 4398046511105| ; \
        bad range 2|bad range 2|bad range 4|bad range 6|bad range 6|
    hold 0 7 0|hold|more 0|more 0 1 1|free|free 0 0| ; bad count|bad count|bad count|bad count|bad count|bad count|
    hold a 7 16 x|hold 0 7 0 x|more 0 -|hold 16 7 0 2|hold -1 7 0 2|more 16 1|more 0 4294967296|free -1| ; \
        bad number 2|bad number 5|bad number 3|bad range 2|bad range 2|bad range 2|bad range 3|bad range 2|
    hold 0 7 0 2|hold 0 8 0 2|more 3 1|free 3|more 0 0|more 0 4294967295|more 0 9|free 0|free 0| ; \
        ok 0|bad held|bad free|bad free|ok 0|2 12 -11|ok 1|ok 0|ok 0|bad free|
    hold 0 7 0 2|hold 15 7 2 9|hold 1 7 3 9|more 15 1|more 1 1|more 0 1|more 15 1|free 0|more 0 1|hold 0 7 2 2|more 15 1|more 0 1| ; \
        ok 0|ok 0|ok 0|2 12 -11|ok 1|ok 0|2 12 -11|ok 1|ok 0|ok 0|bad free|ok 0|ok 0|2 12 -11|ok 1|
    hold 0 7 0 2|hold 15 7 2 2|more 15 1|more 15 1|more 0 1|free 15|free 15|more 15 1|more 0 1|free 1| ; \
        ok 0|ok 0|2 12 -11|ok 1|ok 0|2 12 -11|ok 1|ok 0|bad free|bad free|ok 0|bad free|",
);

/// Lines that ask for several shapes. Sixteen are 85 words, and one word more is one too many.
const SHAPES: Part = (
    CALLS,
    "slice 2 any 2 rect 13 -11 99 99 disc 12 -11 0|slice 2 any 1 rect 13 -11 99 99|\
        interval 0 9 any 2 disc 0 0 16 rect 12 -11 12 -11| ; 7 12 -11|ok 1|ok 0|7 2 12 -11|ok 1|
    slice 0 any 0|slice 0 any 17|slice 0 any x|slice x any 0|interval 0 1 any 17|slice 0 any 1 disc 0 0 -1| ; \
        bad range 4|bad range 4|bad number 4|bad range 4|bad range 5|bad range 8|
    slice 0 any|slice 0 any 2 rect 0 0 1 1|slice 0 any 1 rect 0 0 1 1 5| ; bad count|bad count|bad count|
    slice 0 any 2 rect 0 0 1 disc 0 0 1|slice 0 any 1 ring 1|slice 0 any 1 any 1|slice x any 2 disc 0 0 y ring| ; \
        bad word|bad word|bad word|bad word|
    slice 0 any 2 disc 0 0 1 rect 0 0 y 1| ; bad number 12|
    interval 0 9 any 16 rect 0 0 1 1 rect 0 0 1 1 rect 0 0 1 1 rect 0 0 1 1 rect 0 0 1 1 rect 0 0 1 1 rect 0 0 1 1 \
        rect 0 0 1 1 rect 0 0 1 1 rect 0 0 1 1 rect 0 0 1 1 rect 0 0 1 1 rect 0 0 1 1 rect 0 0 1 1 rect 0 0 1 1 \
        rect 12 -11 12 -11| ; 7 2 12 -11|ok 1|
    interval 0 9 any 16 rect 0 0 1 1 rect 0 0 1 1 rect 0 0 1 1 rect 0 0 1 1 rect 0 0 1 1 rect 0 0 1 1 rect 0 0 1 1 \
        rect 0 0 1 1 rect 0 0 1 1 rect 0 0 1 1 rect 0 0 1 1 rect 0 0 1 1 rect 0 0 1 1 rect 0 0 1 1 rect 0 0 1 1 \
        rect 12 -11 12 -11 1| ; bad count|",
);

/// How the lines that were built are answered in pieces of one byte, of seven, and all at once.
const PIECES: Part = (
    "sink 32768
    asks $0 @
    run once t.csv 1 1 4
    ends 0
    said 12 -11|ok 1|bad long|bad long|",
    "1
    7
    4096",
);

/// The replies to these lines are longer than the text that is held back.
const MANY: Part = (
    "asks 7 @
    cut 0",
    ONCE,
);

const SAID: Part = (
    "sink 32768
    run once t.csv 1 1 4
    ends 0
    said @",
    ONCE,
);

/// One row. Then a line of 1,024 bytes is read, and one of 1,025 is bad, also where all but its last are blanks; a line
/// of blanks is blank, however long it is.
pub const SCRIPT: [Part; 17] = [
    ("new\nfile t.csv 7,2,12,-11|", ONCE),
    LINES,
    SHAPES,
    ("text position 7", ONCE),
    ("put 1 32", "0..1013"),
    ("text 2|position 7", ONCE),
    ("put 1 32", "0..1014"),
    ("text 2|", ONCE),
    ("put 1 32", "0..1024"),
    ("text x|", ONCE),
    ("put 1 32", "0..5000"),
    PIECES,
    ("cut 0", ONCE),
    ("text path 7 0 4|", "0..350"),
    MANY,
    ("text 2 12 -11|ok 1|", "0..350"),
    SAID,
];
