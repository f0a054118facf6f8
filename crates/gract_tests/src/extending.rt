use crate::script::{ONCE, Part};

/// The rows of an object, and later ones, twice: one of an instant that has a row, one before the first instant, and one
/// of another object, of which the first file has a far row too. Then files that are refused, alone or together with the
/// index.
const FILES: Part = (
    "file $0 $1",
    "t.csv ; @rows
    later.csv ; 7,2,9,9|8,1,11,10|7,-9,10,10|8,6,900,10|
    none.csv ; object,instant,x,y|
    all.csv ; 7,0,10,10|7,1,11,10|7,2,12,10|7,2,12,11|7,2,9,9|8,1,11,10|7,-9,10,10|8,6,900,10|
    more.csv ; 7,-3,1,1|7,2,9,9|8,5,3,3|
    both.csv ; 7,-3,1,1|7,0,10,10|7,1,11,10|7,2,9,9|8,5,3,3|
    wide.csv ; 1,0,0,0|1,1,16777216,0|
    far.csv ; 8,0,16777226,10|
    bad.csv ; 7,0,x,1|
    empty.idx ;",
);

/// Commands in turn, and how each ends.
const STEPS: Part = (
    "run $0
    ends $1",
    "build t.csv t.idx 1 1 4 ; 0
    build all.csv all.idx 1 1 4 ; 0
    build both.csv both.idx 1 1 4 ; 0
    extend ; 2 gract: word 2 is not as expected
    extend t.idx ; 2 gract: word 3 is not as expected
    extend t.idx later.csv ; 2 gract: word 4 is not as expected
    extend t.idx later.csv m.idx x ; 2 gract: word 5 is not as expected
    extend no.idx bad.csv m.idx ; 6 gract: a file could not be read
    extend empty.idx bad.csv m.idx ; 5 gract: index header period 0 place 0: short
    extend t.csv no.csv m.idx ; 5 gract: index header period 0 place 0: magic
    extend t.idx no.csv m.idx ; 6 gract: a file could not be read
    extend t.idx bad.csv m.idx ; 3 gract: record 1 field 3 is not a number
    extend t.idx wide.csv m.idx ; 4 gract: limit extent passed at 16777217
    extend t.idx far.csv m.idx ; 4 gract: limit extent passed at 16777217
    extend t.idx none.csv same.idx ; 0
    extend t.idx more.csv more.idx ; 0
    extend t.idx later.csv m.idx ; 0
    extend t.idx later.csv t.idx ; 0",
);

/// What is saved has the bytes that are built of all rows, under any name, and answers for all.
const EXTENSIONS: Part = (
    "heard 0
    said
    holds same.idx @index
    read both.idx
    holds more.idx @
    read all.idx
    holds m.idx @
    holds t.idx @
    run ask m.idx
    ends 0
    said 9 9|ok 1|-9 10 10|0 10 10|1 11 10|2 9 9|ok 4|8 6 900 10|ok 1|objects 2|first -9|last 6|period 4|cell 1|tick 1|\
        height 10|alphabet 3|rules 0|log 6|depth 0|ok 11|
    free 9",
    ONCE,
);

pub const SCRIPT: [Part; 4] = [
    (
        "new\nasks 4096 position 7 2|path 7 -9 9|interval 0 9 rect 12 10 1000 10|info|",
        ONCE,
    ),
    FILES,
    STEPS,
    EXTENSIONS,
];
