use crate::script::Part;

/// The bytes of t.csv, and how the call ends that says nothing.
const REFUSED: Part = (
    "new
    file t.csv $1
    asks 4096 position 7 0|
    run $0
    ends $2
    heard 0
    said
    free 16",
    "once t.csv 1 1 1 ; ; 3 gract: no rows
    once t.csv 1 1 1 ; object,instant,x,y| ; 3 gract: no rows
    once t.csv 1 1 1 ; object,instant,x,y|7,0,1| ; 3 gract: record 2 has 3 fields
    once t.csv 1 1 1 ; 7,0,x,1| ; 3 gract: record 1 field 3 is not a number
    once t.csv 1 1 1 ; -1,0,y,0| ; 3 gract: record 1 field 1 is out of range
    once t.csv 1 1 1 ; 7,0,1099511627777,0| ; 3 gract: record 1 field 3 is out of range
    once t.csv 1 1 1 ; 1,0,0,0|1,1,16777216,0| ; 4 gract: limit extent passed at 16777217
    once t.csv 1 1 1 ; 1,0,0,0|2,0,0,0|3,0,0,0|4,0,0,0|5,0,0,0|1,4194303,0,0| ; \
        4 gract: limit blocks passed at 20971520
    once none.csv +1 01 4194304 ; @rows ; 6 gract: a file could not be read
    ask t.csv ; @rows ; 5 gract: index header period 0 place 0: magic
    ask t.csv ; ; 5 gract: index header period 0 place 0: short
    ask none.idx ; @rows ; 6 gract: a file could not be read
    upgrade t.csv t.idx ; @rows ; 5 gract: index header period 0 place 0: magic
    upgrade none.idx t.idx ; @rows ; 6 gract: a file could not be read
    sample 4097 4096 0 4 ; @rows ; 4 gract: limit rows passed at 16781312",
);

/// Words without a form, and the place of the first bad one.
const BAD_WORDS: Part = (
    "new
    file t.csv @rows
    asks 4096 position 7 0|
    run $0
    ends 2 gract: word $1 is not as expected
    heard 0
    said
    free 16",
    " ; 1
    fetch ; 1
    once ; 2
    once t.csv 0 1 4 ; 3
    once t.csv 1073741825 1 4 ; 3
    once t.csv 1 x 4 ; 4
    once t.csv 1 1 ; 5
    once t.csv 1 1 4194305 ; 5
    once t.csv 1 1 4 x ; 6
    build ; 2
    build t.csv t.idx 1 1 4 x ; 7
    ask ; 2
    ask t.idx t.csv x ; 4
    sample 0 1 0 4 ; 2
    sample 65536 4194305 0 4 ; 3
    sample 1 1 4611686018427387905 4 ; 4
    sample 1 1 -1 4 ; 4
    sample 1 1 0 4 x ; 6
    upgrade t.idx ; 3
    merge ; 2
    merge t.idx ; 3
    merge t.idx u.idx ; 4
    merge t.idx u.idx m.idx x ; 5
    extend ; 2
    extend t.idx ; 3
    extend t.idx t.csv ; 4
    extend t.idx t.csv m.idx x ; 5",
);

pub const SCRIPT: [Part; 2] = [REFUSED, BAD_WORDS];
