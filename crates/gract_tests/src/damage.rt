use crate::script::{ONCE, Part};

/// Each front of the index is short at the element in which it ends.
const FRONTS: Part = (
    "new
    text @old
    cut #
    file t.csv @
    asks 4096 position 7 2|
    run ask t.csv
    ends 5 gract: index $1 period 0 place $2: short
    heard 0
    said
    free 16",
    "0..8 ; header ; 0
    8..12 ; header ; 1
    12..16 ; header ; 2
    16..20 ; header ; 3
    20..24 ; header ; 4
    24..28 ; header ; 5
    28..32 ; header ; 6
    32..36 ; header ; 7
    36..44 ; header ; 8
    44..52 ; header ; 9
    52..60 ; header ; 10
    60..68 ; header ; 11
    68..76 ; header ; 12
    76..80 ; objects ; 0
    80..88 ; alphabet ; 0
    88..96 ; alphabet ; 1
    96..97 ; presence ; 0
    97..101 ; offsets ; 0
    101..105 ; treelen ; 0
    105..106 ; tree ; 0
    106..107 ; lasts ; 0
    107..111 ; perm ; 0
    111..115 ; lengths ; 0
    115..119 ; log ; 0
    119..123 ; log ; 1",
);

/// So is each front of the index of two objects, in version 3: its rows may be of another period.
const PAIR_FRONTS: Part = (
    "new
    text @pair
    cut #
    file t.csv @
    asks 4096 position 7 2|
    run ask t.csv
    ends 5 gract: index $1 period $2 place $3: short
    heard 0
    said
    free 16",
    "0..8 ; header ; 0 ; 0
    8..12 ; header ; 0 ; 1
    12..16 ; header ; 0 ; 2
    16..20 ; header ; 0 ; 3
    20..24 ; header ; 0 ; 4
    24..28 ; header ; 0 ; 5
    28..32 ; header ; 0 ; 6
    32..40 ; header ; 0 ; 7
    40..48 ; header ; 0 ; 8
    48..56 ; header ; 0 ; 9
    56..64 ; header ; 0 ; 10
    64..72 ; header ; 0 ; 11
    72..73 ; objects ; 0 ; 0
    73..74 ; objects ; 0 ; 1
    74..75 ; alphabet ; 0 ; 1
    75..76 ; rules ; 0 ; 0
    76..77 ; rules ; 0 ; 1
    77..78 ; anchors ; 0 ; 0
    78..79 ; anchors ; 1 ; 0
    79..80 ; anchors ; 0 ; 1
    80..81 ; log ; 0 ; 3
    81..82 ; anchors ; 1 ; 1",
);

/// Bytes that are changed, each alone: the place, what it becomes, and the flaw that the index then has.
const CHANGES: Part = (
    "new
    text @old
    byte $0 $1
    file t.csv @
    asks 4096 position 7 2|
    run ask t.csv
    ends 5 gract: index $2 period 0 place $3: $4
    heard 0
    said
    free 16",
    "0 ; 88 ; header ; 0 ; magic
    7 ; 52 ; header ; 0 ; magic
    8 ; 0 ; header ; 1 ; field
    12 ; 0 ; header ; 2 ; field
    12 ; 21 ; header ; 2 ; field
    20 ; 0 ; header ; 4 ; field
    88 ; 2 ; alphabet ; 1 ; order
    88 ; 50 ; alphabet ; 1 ; code
    88 ; 28 ; log ; 1 ; offgrid
    96 ; 3 ; presence ; 0 ; pad
    97 ; 3 ; offsets ; 0 ; offset
    97 ; 1 ; lengths ; 0 ; duration
    104 ; 128 ; treelen ; 0 ; field
    105 ; 16 ; tree ; 0 ; tree
    105 ; 1 ; tree ; 4 ; tree
    106 ; 0 ; lasts ; 1 ; cells
    107 ; 1 ; perm ; 0 ; perm
    111 ; 1 ; lengths ; 0 ; total
    115 ; 2 ; log ; 0 ; symbol",
);

/// Other damage: the command that reports it, an index, how many of its bytes are kept, what is done to them then, and
/// the flaw.
const DAMAGES: Part = (
    "new
    text $1
    cut $2
    $3
    file t.csv @
    asks 4096 position 7 2|
    run $0
    ends 5 gract: index $4
    heard 0
    said
    free 16",
    "ask t.csv ; @old ; 123 ; put 1 0 ; end period 0 place 0: extra
    ask t.csv ; @packed ; 115 ; put 1 6 ; log period 0 place 0: pad
    ask t.csv ; @packed ; 115 ; cut 115 ; log period 0 place 0: short
    ask t.csv ; @packed ; 116 ; byte 12 21 ; tree period 0 place 0: tree
    ask t.csv ; @packed ; 116 ; byte 12 25 ; header period 0 place 2: field
    upgrade t.csv t.idx ; @old ; 122 ; cut 122 ; log period 0 place 1: short
    upgrade t.csv t.idx ; @packed ; 115 ; cut 115 ; log period 0 place 0: short
    upgrade t.csv t.idx ; @index ; 74 ; cut 74 ; anchors period 0 place 0: short
    ask t.csv ; @index ; 75 ; cut 0 ; header period 0 place 0: short
    ask t.csv ; @index ; 75 ; cut 71 ; header period 0 place 11: short
    ask t.csv ; @index ; 75 ; cut 72 ; objects period 0 place 0: short
    ask t.csv ; @index ; 75 ; cut 74 ; anchors period 0 place 0: short
    ask t.csv ; @index ; 75 ; byte 7 52 ; header period 0 place 0: magic
    ask t.csv ; @index ; 75 ; byte 12 25 ; header period 0 place 2: field
    ask t.csv ; @index ; 7 ; put 1 52 ; header period 0 place 0: magic
    ask t.csv ; @index ; 12 ; put 4 25 ; header period 0 place 2: field
    ask t.csv ; @index ; 75 ; byte 20 2 ; end period 0 place 0: pad
    ask t.csv ; @index ; 75 ; byte 28 1 ; rules period 0 place 0: short
    ask t.csv ; @index ; 72 ; put 1 0 ; objects period 0 place 0: large
    ask t.csv ; @index ; 72 ; put 1 96 254 255 255 255 255 255 255 255 7 ; objects period 0 place 0: large
    ask t.csv ; @index ; 72 ; put 1 96 254 255 255 255 255 255 255 255 255 255 7 ; objects period 0 place 0: large
    ask t.csv ; @index ; 72 ; put 1 96 8 0 0 0 208 65 ; objects period 0 place 0: field
    ask t.csv ; @index ; 72 ; put 1 4 74 97 16 ; alphabet period 0 place 1: code
    ask t.csv ; @pair ; 72 ; put 1 4 82 84 164 74 224 178 64 96 12 ; layers period 0 place 0: field
    ask t.csv ; @pair ; 72 ; put 1 4 82 138 86 9 92 22 8 140 1 ; rules period 0 place 0: rule
    ask t.csv ; @pair ; 72 ; put 1 4 82 138 84 13 92 22 8 140 1 ; rules period 0 place 1: rule
    ask t.csv ; @index ; 72 ; put 1 4 218 1 ; starts period 0 place 0: offset
    ask t.csv ; @pair ; 72 ; put 1 4 82 138 84 9 92 22 8 8 12 ; gaps period 1 place 1: offset
    ask t.csv ; @pair ; 72 ; put 1 4 82 138 84 9 156 0 ; anchors period 1 place 0: offgrid
    ask t.csv ; @pair ; 72 ; put 1 4 82 138 84 9 172 178 64 96 12 ; log period 1 place 1: duration
    ask t.csv ; @pair ; 72 ; put 1 4 82 138 84 9 92 22 8 141 1 ; log period 0 place 3: duration
    ask t.csv ; @index ; 72 ; put 1 4 250 8 ; log period 0 place 0: offgrid
    ask t.csv ; @index ; 72 ; put 1 4 58 24 ; end period 0 place 0: pad
    ask t.csv ; @index ; 75 ; put 1 0 ; end period 0 place 0: extra",
);

/// A front of the index that `once` gets in place of its own.
const LAID: Part = (
    "new
    text @old
    cut 122
    lay @
    file t.csv @rows
    asks 4096 position 7 2|
    run once t.csv 1 1 4
    ends 5 gract: index log period 0 place 1: short
    heard 0
    said
    free 16",
    ONCE,
);

/// A symbol that is none of five, where three bits tell them apart.
const SYMBOL: Part = (
    "new
    text @pair
    byte 28 3
    cut 72
    put 1 4 82 68 228 42 129 2
    file t.csv @
    asks 4096 position 7 2|
    run ask t.csv
    ends 5 gract: index log period 0 place 0: symbol
    heard 0
    said
    free 16",
    ONCE,
);

/// An object that has no block.
const ABSENT: Part = (
    "new
    text @index
    cut 72
    put 1 4 218 0
    file t.csv @
    asks 4096 position 7 2|path 7 0 9|
    run ask t.csv
    ends 0
    said ok 0|ok 0|
    free 16",
    ONCE,
);

pub const SCRIPT: [Part; 7] = [FRONTS, PAIR_FRONTS, CHANGES, DAMAGES, SYMBOL, ABSENT, LAID];
