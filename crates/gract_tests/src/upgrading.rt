use crate::script::{ONCE, Part};

/// The index answers in each version.
const OPENED: Part = (
    "new
    file t.csv $0
    asks 4096 position 7 2|path 7 0 2|
    run ask t.csv
    ends 0
    said 12 11|ok 1|0 10 10|1 11 10|2 12 11|ok 3|
    free 16",
    "@index
    @packed
    @old",
);

/// What saves the index of t.csv, with one save, and lets it answer.
const SAVES: Part = (
    "new
    file t.csv $1
    asks 4096 position 7 2|
    run $0
    ends 0
    heard 0
    said
    holds t.idx @index
    holds t.csv $1
    run ask t.idx
    ends 0
    said 12 11|ok 1|
    free 15",
    "build t.csv t.idx 1 1 4 ; @rows
    upgrade t.csv t.idx ; @old
    upgrade t.csv t.idx ; @packed
    upgrade t.csv t.idx ; @index",
);

/// The index of two objects, and its rules. A file of it stays as it is.
const PAIR: Part = (
    "new
    file t.csv 7,0,10,10|7,1,11,10|7,2,12,10|7,3,13,10|7,4,14,10|7,5,15,10|7,6,16,10|7,7,17,10|9,1,10,12|9,6,10,13|
    asks 4096 position 7 6|position 9 6|path 7 3 6|path 9 0 9|slice 6 rect 10 10 16 13|info|
    run build t.csv t.idx 1 1 4
    ends 0
    holds t.idx @pair
    run upgrade t.idx u.idx
    ends 0
    holds u.idx @pair
    run ask u.idx
    ends 0
    said 16 10|ok 1|10 13|ok 1|3 13 10|4 14 10|5 15 10|6 16 10|ok 4|1 10 12|6 10 13|ok 2|7 16 10|9 10 13|ok 2|objects 2|first 0|last 7|\
        period 4|cell 1|tick 1|height 3|alphabet 2|rules 2|log 5|depth 2|ok 11|
    free 14",
    ONCE,
);

/// A file of version 1 of the same rows, with a third rule, which is the first one again: where the rules stand by their
/// layers, both are side by side.
const UNSETTLED: Part = (
    "new
    text GRACT001
    put 4 4 3 2 8 2 3 6
    put 8 0 10 10 1 1
    put 4 7 9
    put 8 0 2
    put 4 1 1 2 1 1 1
    put 1 3
    put 4 0 1 16
    put 1 81 17 3
    put 4 0 1 1 2
    put 1 3
    put 4 0 2 20
    put 1 67 65 1 3
    put 4 1 0 2 1
    put 4 3 0 0 4 1 0
    long 213
    file old.idx @
    cut 0",
    ONCE,
);

/// It is saved with its rules in order, and answers as before.
const SETTLED: Part = (
    "text GRACT003
    put 4 4 3 2 8 2 3
    put 8 0 10 10 1 1
    put 1 4 82 68 228 42 1 150 69 32 192 24 0
    run upgrade old.idx t.idx
    ends 0
    holds t.idx @
    asks 4096 path 7 3 6|path 9 0 9|slice 6 rect 10 10 16 13|info|
    run ask $0
    ends 0
    said 3 13 10|4 14 10|5 15 10|6 16 10|ok 4|1 10 12|6 10 13|ok 2|7 16 10|9 10 13|ok 2|objects 2|first 0|last 7|\
        period 4|cell 1|tick 1|height 3|alphabet 2|rules 3|log 6|depth 2|ok 11|
    sink 32768
    cut 0",
    "old.idx
    t.idx",
);

pub const SCRIPT: [Part; 5] = [OPENED, SAVES, PAIR, UNSETTLED, SETTLED];
