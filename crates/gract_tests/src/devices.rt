use crate::script::{ONCE, Part};

/// A source that fails at its nth call, a sink with room for so many bytes, and files that fail at their nth call,
/// where 0 is no call; how `once` then ends, and what it said.
const FAILURES: Part = (
    "new
    fail $0 1
    asks 4096 path 7 0 0|position 7 1|position 7 2
    sink $1
    fail $2 1
    files 130
    file t.csv @rows
    run once t.csv 1 1 4
    ends $3
    said $4",
    "0 ; 32768 ; 0 ; 0 ; 0 10 10|ok 1|11 10|ok 1|12 11|ok 1|
    2 ; 32768 ; 0 ; 6 gract: the questions could not be read ; 0 10 10|ok 1|11 10|ok 1|
    0 ; 8 ; 0 ; 6 gract: the answers could not be written ; 0 10 10|
    2 ; 8 ; 2 ; 6 gract: a file could not be read ;",
);

/// A command, the call of the files that fails, how it ends, and what it said. Only a build that is done leaves an
/// index: the look for it is then the call that fails.
const CALLS: Part = (
    "new
    fail $1 1
    files 130
    file t.csv @rows
    file old.idx @old
    asks 4096 position 7 2|
    run $0
    ends $2
    said $3
    missing t.idx",
    "build t.csv t.idx 1 1 4 ; 1 ; 6 gract: a file could not be read ;
    build t.csv t.idx 1 1 4 ; 2 ; 6 gract: a file could not be read ;
    build t.csv t.idx 1 1 4 ; 3 ; 6 gract: a file could not be read ;
    build t.csv t.idx 1 1 4 ; 4 ; 6 gract: the index could not be saved ;
    build t.csv t.idx 1 1 4 ; 5 ; 0 ;
    ask old.idx ; 1 ; 6 gract: a file could not be read ;
    ask old.idx ; 2 ; 6 gract: a file could not be read ;
    ask old.idx ; 3 ; 6 gract: a file could not be read ;
    ask old.idx ; 4 ; 0 ; 12 11|ok 1|",
);

/// A build that finds no place for its save leaves the files as they were.
const FULL: Part = (
    "new
    files 130
    file t.csv @rows
    asks 4096 position 7 2|
    free 16
    run build t.csv t.idx 1 1 4
    ends 6 gract: the index could not be saved
    heard 0
    said
    missing t.idx
    holds t.csv @rows",
    ONCE,
);

/// Cursors in two slots over the path of one object, drawn from in turns, and what is said of them.
const IN_TURNS: Part = (
    "new
    text ok 0|ok 0|0 10 10|ok 1|1 11 10|2 12 11|ok 2|1 11 10|2 12 11|ok 2|ok 0|bad held|bad free|ok 0|bad free|
    file t.csv @rows",
    ONCE,
);

/// The calls of the source that fail, and the length of the pieces that it gives: a front of the replies is said.
const LISTENS: Part = (
    "sink 4096
    fail # 1
    asks $1 @turns
    run once t.csv 1 1 4
    ends 6 gract: the questions could not be read
    front @",
    "1..3 ; 4096
    1..100 ; 1",
);

/// The source is not asked again once it has told its end: the next call of it would fail.
const ENDS: Part = (
    "sink 4096
    fail $0 1
    asks $1 @turns
    run once t.csv 1 1 4
    ends 0
    said @",
    "3 ; 4096
    100 ; 1",
);

/// The calls of the sink that fail, and the length of the lines' pieces. The sink is not called again after such a
/// call: the next one, which fails too, is still to come.
const SAYS: Part = (
    "fail # 2
    sink 4096
    asks $1 @turns
    run once t.csv 1 1 4
    ends 6 gract: the answers could not be written
    front @
    deaf",
    "1..2 ; 4096
    1..11 ; 1",
);

/// There are no more calls of the sink than those.
const ALL_SAID: Part = (
    "fail $0 1
    sink 4096
    asks $1 @turns
    run once t.csv 1 1 4
    ends 0
    said @
    deaf",
    "2 ; 4096
    11 ; 1",
);

pub const SCRIPT: [Part; 8] = [
    FAILURES, CALLS, FULL, IN_TURNS, LISTENS, ENDS, SAYS, ALL_SAID,
];
