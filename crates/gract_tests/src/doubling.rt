use crate::script::{ONCE, Part};

/// The numbers of 1,000 objects, and of their places.
const NUMBERS: Part = ("put 4 #", "0..1000");

/// The list of cells ends before the rules. Each of them is twice the one before it.
const ALPHABET: Part = ("put 8 1", ONCE);

const PRESENCE: Part = ("put 1 255", "0..125");

const OFFSETS: Part = ("put 4 0", "0..1000");

const TREE: Part = ("put 4 4\nput 1 1", ONCE);

const LASTS: Part = ("put 1 0", "0..124");

const LAST: Part = ("put 1 128", ONCE);

const LENGTHS: Part = ("put 4 22", "0..1000");

const LOGS: Part = (
    "put 4 0 1 2 3 4 5 6 7 8 9 10 11 12 13 14 15 16 17 18 19 20 21",
    "0..1000",
);

/// Lines that are answered from few of the rows.
const FEW: Part = (
    "long 104507
    file t.csv @
    asks 4096 position 999 4194303|position 1000 4194303|slice 4194303 rect 5 5 6 6|\
        interval 0 4194303 rect 5 5 6 6|nearest 2 4194303 1 0|path 7 4194302 9000000|\
        path 999 4194301 4194303|
    run ask t.csv
    ends 0
    said 0 0|ok 1|ok 0|ok 0|ok 0|0 0 0 1|1 0 0 1|ok 2|4194302 0 0|4194303 0 0|ok 2|\
        4194301 0 0|4194302 0 0|4194303 0 0|ok 3|",
    ONCE,
);

/// Its upgrade answers too.
const UPGRADED: Part = (
    "files 20000
    file t.csv @
    run upgrade t.csv t.idx
    ends 0
    sink 4096
    asks 4096 position 999 4194303|path 7 4194302 9000000|nearest 2 4194303 1 0|info|
    run ask t.idx
    ends 0
    said 0 0|ok 1|4194302 0 0|4194303 0 0|ok 2|0 0 0 1|1 0 0 1|ok 2|objects 1000|first 0|last 4194303|period 4194304|\
        cell 1|tick 1|height 1|alphabet 1|rules 21|log 22000|depth 21|ok 11|
    files 4096
    file t.csv @",
    ONCE,
);

/// The index is opened in place of that of `once` and of `sample`, whatever that was.
const LAID: Part = (
    "lay @
    sink 4096
    asks 4096 position 7 2|
    file u.csv @rows
    run once u.csv 1 1 4
    ends 0
    said 0 0|ok 1|
    lay @
    sink 4096
    run sample 2 1 5 4
    ends 0
    said objects 1000|first 0|last 4194303|period 4194304|cell 1|tick 1|height 1|alphabet 1|rules 21|\
        log 22000|depth 21|ok 11|ok 1|ok 1|ok 1000|ok 0|ok 5|
    cut 0",
    ONCE,
);

/// Lines whose replies name all objects.
const ALL: Part = (
    "text ok 1000|
    sink 32768
    asks 4096 slice 4194303 rect 0 0 0 0|interval 5 4194303 rect 0 0 0 0|
    run ask t.csv
    ends 0
    said @
    free 16",
    ONCE,
);

/// The last of 22 rules would last longer than a period.
const REFUSED: Part = (
    "file t.csv @
    asks 4096 position 7 2|
    run ask t.csv
    ends 5 gract: index rules period 0 place 21: rule
    lay @
    file u.csv @rows
    run once u.csv 1 1 4
    ends 5 gract: index rules period 0 place 21: rule
    heard 0
    said
    free 16",
    ONCE,
);

/// The index of 1,000 objects that stand still for 2^22 instants: four billion rows, in 104,507 bytes. Its 21 rules
/// double. Then the same with 22 rules.
pub const SCRIPT: [Part; 32] = [
    (
        "new
        text GRACT001
        put 4 4194304 1 1000 4194304 1 21 22000
        put 8 0 0 0 1 1",
        ONCE,
    ),
    NUMBERS,
    ALPHABET,
    ("put 4 # #", "0..21"),
    PRESENCE,
    OFFSETS,
    TREE,
    LASTS,
    LAST,
    NUMBERS,
    LENGTHS,
    LOGS,
    FEW,
    UPGRADED,
    LAID,
    ("text # 0 0|", "0..1000"),
    ("text ok 1000|", ONCE),
    ("text # 5 0 0|", "0..1000"),
    ALL,
    (
        "new
        text GRACT001
        put 4 4194304 1 1000 4194304 1 22 22000
        put 8 0 0 0 1 1",
        ONCE,
    ),
    NUMBERS,
    ALPHABET,
    ("put 4 # #", "0..22"),
    PRESENCE,
    OFFSETS,
    TREE,
    LASTS,
    LAST,
    NUMBERS,
    LENGTHS,
    LOGS,
    REFUSED,
];
