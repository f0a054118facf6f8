use crate::script::Part;

/// Samples, and what is said of each. The last was worked out by another program.
const SAMPLES: Part = (
    "new
    file t.csv
    asks 4096 position 7 2|
    run $0
    ends 0
    said $1
    heard 0
    loaded 0
    free 16",
    "sample 2 1 5 4 ; \
        objects 2|first 0|last 0|period 4|cell 1|tick 1|height 7|alphabet 0|rules 0|log 0|depth 0|\
        ok 11|ok 1|ok 1|ok 2|ok 0|ok 2|
    sample 1 2 0 4 ; \
        objects 1|first 0|last 1|period 4|cell 1|tick 1|height 1|alphabet 1|rules 0|log 1|depth 0|\
        ok 11|ok 1|ok 2|ok 1|ok 0|ok 1|
    sample 64 64 9 16 ; \
        objects 64|first 0|last 63|period 16|cell 1|tick 1|height 10|alphabet 10|rules 282|log 1721|depth 3|\
        ok 11|ok 1|ok 60|ok 17|ok 1|ok 5|",
);

pub const SCRIPT: [Part; 1] = [SAMPLES];
