use crate::script::{ONCE, Part};

/// Rows of two objects in a file each and in one, and a row so far from them that their extent has one cell too many.
const FILES: Part = (
    "file $0 $1",
    "t.csv ; @rows
    u.csv ; 9,-1,4,4|9,3,5,4|
    all.csv ; 7,0,10,10|7,1,11,10|7,2,12,10|7,2,12,11|9,-1,4,4|9,3,5,4|
    far.csv ; 8,0,16777226,10|
    empty.idx ;",
);

/// The index of the first, 2^40 - 10 columns to the right.
const FAR: Part = (
    "text @old
    byte 44 0
    byte 49 1
    file base.idx @
    cut 0",
    ONCE,
);

/// Commands in turn, and how each ends.
const STEPS: Part = (
    "run $0
    ends $1",
    "build t.csv t.idx 1 1 4 ; 0
    build u.csv u.idx 1 1 4 ; 0
    build all.csv all.idx 1 1 4 ; 0
    build far.csv far.idx 1 1 4 ; 0
    build u.csv long.idx 1 1 8 ; 0
    build u.csv wide.idx 2 3 8 ; 0
    merge t.csv empty.idx m.idx ; 5 gract: index header period 0 place 0: magic
    merge empty.idx t.csv m.idx ; 5 gract: index header period 0 place 0: short
    merge t.idx t.csv m.idx ; 5 gract: index header period 0 place 0: magic
    merge ; 2 gract: word 2 is not as expected
    merge t.idx ; 2 gract: word 3 is not as expected
    merge t.idx u.idx ; 2 gract: word 4 is not as expected
    merge t.idx u.idx m.idx x ; 2 gract: word 5 is not as expected
    merge none.idx t.csv m.idx ; 6 gract: a file could not be read
    merge t.idx none.idx m.idx ; 6 gract: a file could not be read
    merge t.idx t.idx m.idx ; 9 gract: object 7 is in both files
    merge t.idx long.idx m.idx ; 8 gract: the files differ in period: 4 and 8
    merge wide.idx t.idx m.idx ; 8 gract: the files differ in cell: 2 and 1
    merge t.idx all.idx m.idx ; 9 gract: object 7 is in both files
    merge far.idx t.idx m.idx ; 4 gract: limit extent passed at 16777217
    merge base.idx u.idx m.idx ; 4 gract: limit base passed at 1099511627778
    merge t.idx u.idx m.idx ; 0
    merge u.idx t.idx u.idx ; 0",
);

/// Both unions have the bytes that are built of both files' rows, and answer for both.
const UNIONS: Part = (
    "heard 0
    said
    read all.idx
    holds m.idx @
    holds u.idx @
    run ask m.idx
    ends 0
    said -1 4 4|3 5 4|ok 2|12 11|ok 1|objects 2|first -1|last 3|period 4|cell 1|tick 1|height 4|\
        alphabet 3|rules 0|log 5|depth 0|ok 11|
    free 8",
    ONCE,
);

pub const SCRIPT: [Part; 5] = [
    ("new\nasks 4096 path 9 -5 5|position 7 2|info|", ONCE),
    FILES,
    FAR,
    STEPS,
    UNIONS,
];
