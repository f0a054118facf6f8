use spiral_code::{decode_move, encode_move, ring};

// A code, the movement that it stands for, and its ring.
type Row = (u8, i8, i8, u8);

const ROWS: [Row; 27] = [
    (0, 0, 0, 0),
    (1, 1, 0, 1),
    (2, 1, 1, 1),
    (3, 0, 1, 1),
    (4, -1, 1, 1),
    (5, -1, 0, 1),
    (6, -1, -1, 1),
    (7, 0, -1, 1),
    (8, 1, -1, 1),
    (9, 2, -1, 2),
    (10, 2, 0, 2),
    (11, 2, 1, 2),
    (12, 2, 2, 2),
    (13, 1, 2, 2),
    (14, 0, 2, 2),
    (15, -1, 2, 2),
    (16, -2, 2, 2),
    (17, -2, 1, 2),
    (18, -2, 0, 2),
    (19, -2, -1, 2),
    (20, -2, -2, 2),
    (21, -1, -2, 2),
    (22, 0, -2, 2),
    (23, 1, -2, 2),
    (24, 2, -2, 2),
    (25, 3, -2, 3),
    (27, 3, 0, 3),
];

// Whether the row holds both ways.
fn is_told((code, dx, dy, on_ring): Row) -> bool {
    let (code, dx, dy) = (u64::from(code), i64::from(dx), i64::from(dy));
    let movement = decode_move(code);
    encode_move(dx, dy) == code && movement == (dx, dy) && ring(code) == u64::from(on_ring)
}

#[test]
fn rings_0_to_3_run_as_in_the_table(rt: HostRuntime) {
    for row in ROWS {
        let (code, ..) = row;
        assert!(rt; is_told(row), "code {code}");
    }
}

// The lower right corner of the greatest grid.
fn is_last_told() -> bool {
    let last = 1_125_899_839_733_760;
    let edge = 16_777_215;
    let movement = decode_move(last);
    encode_move(edge, -edge) == last && movement == (edge, -edge) && ring(last) == 16_777_215
}

#[test]
fn the_last_code_goes_to_the_lower_right_corner(rt: HostRuntime) {
    assert!(rt; is_last_told());
}
