//! Answers that the reference Lua gives.

use int_ops::{
    ZeroDivisor, add, bit_and, bit_not, bit_or, bit_xor, floor_div, floor_mod, mul, neg,
    read_in_base, read_integer, shift_left, shift_right, sub, text_of,
};
use std::test::Fail;

const LOW: i64 = i64::MIN;

const HIGH: i64 = i64::MAX;

/// Two numbers, and what `+ - * & | ~ << >>` give for them.
const PAIRS: [(i64, i64, [i64; 8]); 9] = [
    (7, 3, [10, 4, 21, 3, 7, 4, 56, 0]),
    (-7, 3, [-4, -10, -21, 1, -5, -6, -56, 2305843009213693951]),
    (
        HIGH,
        1,
        [
            LOW,
            HIGH - 1,
            HIGH,
            1,
            HIGH,
            HIGH - 1,
            -2,
            4611686018427387903,
        ],
    ),
    (
        LOW,
        -1,
        [HIGH, LOW + 1, LOW, LOW, -1, HIGH, 4611686018427387904, 0],
    ),
    (LOW, LOW, [0, 0, 0, LOW, LOW, 0, 0, 0]),
    (-1, 63, [62, -64, -63, 63, -1, -64, LOW, 1]),
    (-1, 64, [63, -65, -64, 64, -1, -65, 0, 0]),
    (-1, -64, [-65, 63, 64, -64, -1, 63, 0, 0]),
    (
        6364136223846793005,
        3,
        [
            6364136223846793008,
            6364136223846793002,
            645664597830827399,
            1,
            6364136223846793007,
            6364136223846793006,
            -4427142430354310808,
            795517027980849125,
        ],
    ),
];

/// Two numbers, the floor of their quotient, and what it leaves.
const QUOTIENTS: [(i64, i64, i64, i64); 12] = [
    (7, 2, 3, 1),
    (-7, 2, -4, 1),
    (7, -2, -4, -1),
    (-7, -2, 3, -1),
    (6, -2, -3, 0),
    (-6, 2, -3, 0),
    (0, -5, 0, 0),
    (LOW, -1, LOW, 0),
    (LOW, 1, LOW, 0),
    (HIGH, LOW, -1, -1),
    (LOW, HIGH, -2, 9223372036854775806),
    (1, LOW, -1, -9223372036854775807),
];

const TEXTS: [(&[u8], Option<i64>); 34] = [
    (b"0", Some(0)),
    (b"10", Some(10)),
    (b" \t\n\x0b\x0c\r-12 \n", Some(-12)),
    (b"+5", Some(5)),
    (b"00000000000000000000000012", Some(12)),
    (b"9223372036854775807", Some(HIGH)),
    (b"9223372036854775808", None),
    (b"-9223372036854775808", Some(LOW)),
    (b"-9223372036854775809", None),
    (b"99999999999999999999999999999999", None),
    (b"18446744073709551616", None),
    (b"0x10", Some(16)),
    (b"0XaBc", Some(2748)),
    (b"-0xff", Some(-255)),
    (b"0xffffffffffffffff", Some(-1)),
    (b"0x7fffffffffffffff", Some(HIGH)),
    (b"0x10000000000000001", Some(1)),
    (b"-0x8000000000000000", Some(LOW)),
    (b"", None),
    (b" ", None),
    (b"-", None),
    (b"+-1", None),
    (b"- 1", None),
    (b"0x", None),
    (b"0xg", None),
    (b"1 2", None),
    (b"1e1", None),
    (b"1.0", None),
    (b"a", None),
    (b"1\x00", None),
    (b"0x 1", None),
    (b"x1", None),
    (b"1_0", None),
    (b"\xff1", None),
];

const BASED: [(&[u8], u32, Option<i64>); 18] = [
    (b"101", 2, Some(5)),
    (b"102", 2, None),
    (b" -zZ ", 36, Some(-1295)),
    (b"+7", 8, Some(7)),
    (b"8", 8, None),
    (b"ff", 16, Some(255)),
    (b"0xff", 16, None),
    (b"", 10, None),
    (b"-", 10, None),
    (b"9223372036854775808", 10, Some(LOW)),
    (b"18446744073709551617", 10, Some(1)),
    (b"-18446744073709551617", 10, Some(-1)),
    (
        b"1111111111111111111111111111111111111111111111111111111111111111",
        2,
        Some(-1),
    ),
    (
        b"10000000000000000000000000000000000000000000000000000000000000001",
        2,
        Some(1),
    ),
    (b"1.", 10, None),
    (b"{", 36, None),
    (b"[", 36, None),
    (b"1 1", 10, None),
];

const WRITTEN: [(i64, &[u8]); 6] = [
    (0, b"0"),
    (-1, b"-1"),
    (1234567890, b"1234567890"),
    (HIGH, b"9223372036854775807"),
    (LOW, b"-9223372036854775808"),
    (-10, b"-10"),
];

fn in_base(text: &[u8], base: u32) -> Option<i64> {
    if 2 <= base && base <= 36 {
        read_in_base(text, base)
    } else {
        None
    }
}

#[test]
fn as_lua_answers(rt: HostRuntime) -> Result<(), Fail> {
    for (a, b, wanted) in PAIRS {
        let answers = [
            add(a, b),
            sub(a, b),
            mul(a, b),
            bit_and(a, b),
            bit_or(a, b),
            bit_xor(a, b),
            shift_left(a, b),
            shift_right(a, b),
        ];
        assert_eq!(rt; answers, wanted, "at {a} and {b}");
        assert_eq!(rt; add(bit_not(a), 1), neg(a), "at {a}");
    }
    for (a, b, quotient, rest) in QUOTIENTS {
        assert_eq!(rt; floor_div(a, b), Ok(quotient), "at {a} and {b}");
        assert_eq!(rt; floor_mod(a, b), Ok(rest), "at {a} and {b}");
        assert_eq!(rt; floor_div(a, 0), Err(ZeroDivisor));
        assert_eq!(rt; floor_mod(a, 0), Err(ZeroDivisor));
    }
    assert_eq!(rt; shift_left(1, LOW), 0);
    assert_eq!(rt; shift_right(1, LOW), 0);
    assert_eq!(rt; shift_right(1, -63), LOW);
    for (text, wanted) in TEXTS {
        assert_eq!(rt; read_integer(text), wanted, "at {text:?}");
    }
    for (text, base, wanted) in BASED {
        assert_eq!(rt; in_base(text, base), wanted, "at {text:?}");
    }
    for (a, wanted) in WRITTEN {
        let text = text_of(rt.alloc(), a)?;
        assert_eq!(rt; text.as_slice(), wanted, "at {a}");
    }
    Ok(())
}
