use crate::script::{ONCE, Part};

/// Few rows, PERIOD, and how the call ends: a quantity of the chart is too great, or just not.
const FEW: Part = (
    "new
    file t.csv $0
    run once t.csv 1 1 $1
    ends $2
    said",
    "0,0,0,0|0,1,16777215,0| ; 4 ; 0
    0,0,0,0|0,1,16777216,0| ; 4 ; 4 gract: limit extent passed at 16777217
    0,0,0,0|0,1,0,-16777215| ; 4 ; 0
    0,0,0,0|0,1,0,-16777216| ; 4 ; 4 gract: limit extent passed at 16777217
    0,0,0,0|0,1,16777218,16777217| ; 4 ; 4 gract: limit extent passed at 16777219
    0,0,0,0|1,0,0,0|2,0,0,0|3,0,0,0|4,0,0,0|0,4194303,0,0| ; 1 ; 4 gract: limit blocks passed at 20971520
    0,0,0,0|1,0,0,0|2,0,0,0|3,0,0,0|4,0,0,0|5,0,0,0|6,0,0,0|7,0,0,0|8,0,0,0|0,4194302,0,0| ; 2 ; \
        4 gract: limit blocks passed at 18874368
    0,0,0,0|1,0,0,0|2,0,0,0|3,0,0,0|4,0,0,0|5,0,0,0|6,0,0,0|7,0,0,0|8,0,0,0|0,4194303,0,0| ; 4194304 ; \
        4 gract: limit symbols passed at 37748727
    0,0,0,0|1,0,0,0|2,0,0,0|3,0,0,0|4,0,0,0|5,0,0,0|6,0,0,0|7,0,0,0|8,0,0,0|9,4194300,0,0| ; 4194304 ; \
        4 gract: limit symbols passed at 37748700",
);

/// 65,536 objects in one cell at one instant, which are 775,322 bytes.
const FLEET: Part = ("text #,0,0,0|", "0..65536");

/// Further rows, and the first of the limits that are passed then, in their order.
const IN_ORDER: Part = (
    "cut 775322
    text $0
    file t.csv @
    run once t.csv 1 1 1
    ends 4 gract: limit $1",
    "0,4194303,16777216,0| ; extent passed at 16777217
    0,4194304,16777216,0| ; span passed at 4194305
    65536,0,0,0|0,4194304,16777216,0| ; objects passed at 65537",
);

/// 140,000 rows of 70,000 objects.
const CROWD: Part = ("text #,0,0,0|", "0..70000");

const LATER: Part = ("text #,1,1,0|", "0..70000");

const REFUSED: Part = (
    "file t.csv @
    run once t.csv 1 1 1
    ends 4 gract: limit objects passed at 70000",
    ONCE,
);

pub const SCRIPT: [Part; 8] = [
    FEW,
    ("new", ONCE),
    FLEET,
    IN_ORDER,
    ("new", ONCE),
    CROWD,
    LATER,
    REFUSED,
];
