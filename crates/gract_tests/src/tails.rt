use crate::script::Part;

/// Calls with t.csv as the tail of the index: the tail, how each ends and what it says.
///
/// The first tail has a row of an object and an instant that the index has too, one of another object, and one of a
/// later instant. The second has no row.
const TAILS: Part = (
    "new
    file t.idx @index
    file t.csv $1
    asks 4096 position 7 2|path 7 0 9|slice 1 rect 11 10 11 10|interval 0 9 rect 12 11 12 11|\
        nearest 1 2 12 11|meet 7 8 0 9 0|
    run $0
    ends $2
    said $3
    free 16",
    "ask t.idx t.csv ; 7,2,9,9|8,1,11,10|7,5,10,10| ; 0 ; \
        9 9|ok 1|0 10 10|1 11 10|2 9 9|5 10 10|ok 4|7 11 10|8 11 10|ok 2|ok 0|7 9 9 13|ok 1|1 11 10 11 10|ok 1|
    ask t.idx t.csv ; object,instant,x,y| ; 0 ; \
        12 11|ok 1|0 10 10|1 11 10|2 12 11|ok 3|7 11 10|ok 1|7 2 12 11|ok 1|7 12 11 0|ok 1|ok 0|
    ask t.idx t.csv ; 7,0,x,1| ; 3 gract: record 1 field 3 is not a number ;
    ask t.idx t.csv ; 1,0,0,0|1,1,16777216,0| ; 4 gract: limit extent passed at 16777217 ;
    ask t.idx none.csv ; 7,2,9,9|8,1,11,10|7,5,10,10| ; 6 gract: a file could not be read ;
    ask none.idx t.csv ; 7,0,x,1| ; 6 gract: a file could not be read ;
    ask t.idx t.csv x ; 7,2,9,9|8,1,11,10|7,5,10,10| ; 2 gract: word 4 is not as expected ;",
);

pub const SCRIPT: [Part; 1] = [TAILS];
