use crate::script::{ONCE, Part};

/// Each call is made with lines that come in pieces of one byte, of five, and all at once. Cursors in two slots are
/// drawn from in turns, and a slot gets from its own lines alone what it gets among those of another.
const REPLIES: Part = (
    "new
    file t.csv $1
    asks 1 $2
    run $0
    ends 0
    said $3
    sink 32768
    asks 5 $2
    run $0
    ends 0
    said $3
    sink 32768
    asks 4096 $2
    run $0
    ends 0
    said $3",
    "once t.csv 1 1 4 ; @rows ; \
        position 7 2|path 7 0 9|position 8 2|position 7 3| ; \
        12 11|ok 1|0 10 10|1 11 10|2 12 11|ok 3|ok 0|ok 0|
    once t.csv 1 1 1 ; @rows ; \
        path 7 1 2|path 7 3 0|path 8 0 9| ; 1 11 10|2 12 11|ok 2|ok 0|ok 0|
    once t.csv 1 1 4 ; 9,0,-1,5|9,2,-1,6| ; position 9 1|position 9 2| ; ok 0|-1 6|ok 1|
    once t.csv 10 60 4 ; 1,-1,-1,-10| ; position 1 -1|path 1 -5 5|info| ; -1 -1|ok 1|-1 -1 -1|ok 1|\
        objects 1|first -1|last -1|period 4|cell 10|tick 60|height 1|alphabet 0|rules 0|log 0|depth 0|ok 11|
    once t.csv 1 10 4 ; 7,21,0,0|9,-1,4,4|7,10,1,1|7,29,5,5|3,20,8,8|7,20,6,6|7,19,2,2| ; \
        path 3 -9 9|path 7 -9 9|path 9 -9 9|info| ; \
        2 8 8|ok 1|1 2 2|2 6 6|ok 2|-1 4 4|ok 1|objects 3|first -1|last 2|period 4|cell 1|tick 10|height 3|\
        alphabet 2|rules 0|log 4|depth 0|ok 11|
    once t.csv 1 1 8 ; 4294967295,1099511627776,1099511627776,-1099511627776| ; path 4294967295 0 2199023255552| ; \
        1099511627776 1099511627776 -1099511627776|ok 1|
    once t.csv 1 1 8 ; 4294967295,-1099511627776,-1099511627776,1099511627776| ; path 4294967295 -2199023255552 0| ; \
        -1099511627776 -1099511627776 1099511627776|ok 1|
    once t.csv 1 1 8 ; 1,5,1,0|2,4100000,0,0|1,5,2,0|1,-90000,3,0|2,5,4,0|1,4104303,9,0|2,4100000,7,0| ; \
        path 1 -90000 4104303|path 2 -90000 4104303| ; -90000 3 0|5 2 0|4104303 9 0|ok 3|5 4 0|4100000 7 0|ok 2|
    once t.csv 1 1 8 ; 1,5,1048581,0|2,6,0,0|1,5,3,-1| ; path 1 0 9|path 2 0 9| ; 5 3 -1|ok 1|6 0 0|ok 1|
    once t.csv 1 1 8 ; 1,0,0,0|1,1,1,0|1,2,2,0|1,3,3,0|1,4,4,0| ; position 1 3| ; 3 0|ok 1|
    once t.csv 100 60 120 ; \
        object,instant,x,y\r|265547250,1467327600,312455,6401239\r|\
        \"265547250\", 1467327662,312561,6401250\r| ; \
        path 265547250 24455460 24455462| ; 24455460 3124 64012|24455461 3125 64012|ok 2|
    once t.csv 1 1 4 ; @rows ; \
        Position 7 2|position a 0| \t\r||position -1 0|position 7| ; \
        bad word|bad number 2|bad range 2|bad count|
    once t.csv 1 1 4 ; @rows ; \
        slice 0 ring 1 2 3|slice 0|slice 0 rect 1 2 3|hold 16 7 0 2| ; \
        bad word|bad count|bad count|bad range 2|
    once t.csv 1 1 4 ; @rows ; @turns ; \
        ok 0|ok 0|0 10 10|ok 1|1 11 10|2 12 11|ok 2|1 11 10|2 12 11|ok 2|ok 0|bad held|bad free|ok 0|bad free|
    once t.csv 1 1 4 ; @rows ; \
        hold 0 7 0 2|hold 15 7 1 2|more 0 1|more 15 5|more 0 5|more 0 1|hold 15 7 0 0|free 3|free 15|more 15 1| ; \
        ok 0|ok 0|0 10 10|ok 1|1 11 10|2 12 11|ok 2|1 11 10|2 12 11|ok 2|ok 0|bad held|bad free|ok 0|bad free|
    once t.csv 1 1 4 ; @rows ; \
        hold 15 7 1 2|more 15 5|hold 15 7 0 0|free 15|more 15 1| ; \
        ok 0|1 11 10|2 12 11|ok 2|bad held|ok 0|bad free|
    once t.csv 1 1 4 ; @rows ; \
        hold 0 7 0 2|hold 0 7 0 2|more 0 0|more 0 9|more 0 9|free 0|hold 0 8 0 2|more 0 1| ; \
        ok 0|bad held|ok 0|0 10 10|1 11 10|2 12 11|ok 3|ok 0|ok 0|ok 0|ok 0|
    once t.csv 1 1 4 ; 5,0,2,0|3,0,-2,0|9,0,0,3| ; \
        nearest 5 0 0 0|slice 0 any 2 rect 2 0 2 0 disc 0 3 0|meet 3 5 0 9 16| ; \
        3 -2 0 4|5 2 0 4|9 0 3 9|ok 3|5 2 0|9 0 3|ok 2|0 -2 0 2 0|ok 1|",
);

/// Two objects that come nearer, in periods of so many instants: their first meeting, or none.
const MEETINGS: Part = (
    "new
    file t.csv 1,0,0,0|1,1,1,0|1,2,2,0|1,3,2,0|2,0,9,0|2,1,8,0|2,2,5,0|2,3,2,0|
    asks 4096 meet 1 2 0 9 3|meet 1 2 0 9 2|meet 1 2 0 1 3|meet 1 9 0 9 3|meet 1 1 1 9 0|
    run once t.csv 1 1 $0
    ends 0
    said 2 2 0 5 0|ok 1|3 2 0 2 0|ok 1|ok 0|ok 0|1 1 0 1 0|ok 1|",
    "1
    2
    3
    4
    8",
);

/// An object that stands still for 600 instants: the reply is longer than the text that is held back. Then a file of
/// more bytes than are asked for at a time: its first piece ends in the row of the instant 7,742. Then a line of
/// 1,025 bytes that has words, and a last line without a line feed.
pub const SCRIPT: [Part; 15] = [
    REPLIES,
    MEETINGS,
    ("new", ONCE),
    ("text 7,#,-5,12|", "100..700"),
    ("file t.csv @\ncut 0", ONCE),
    ("text # -5 12|", "100..700"),
    (
        "text ok 600|
        asks 4096 path 7 0 1000|
        run once t.csv 1 1 100
        ends 0
        said @",
        ONCE,
    ),
    ("new", ONCE),
    ("text 4000000000,#,-5,-1099511627776|", "0..8000"),
    ("long 270890\nfile t.csv @\ncut 0", ONCE),
    ("text # -5 -1099511627776|", "7700..7800"),
    (
        "text ok 100|
        asks 4096 path 4000000000 7700 7799|
        run once t.csv 1 1 8192
        ends 0
        said @",
        ONCE,
    ),
    ("new\ntext position 7", ONCE),
    ("put 1 32", "0..1014"),
    (
        "text 2
        long 1025
        text |position 7 2
        asks 5 @
        file t.csv @rows
        run once t.csv 1 1 4
        ends 0
        said bad long|12 11|ok 1|",
        ONCE,
    ),
];
