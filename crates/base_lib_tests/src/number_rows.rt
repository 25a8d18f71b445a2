//! What `tonumber` and math answer, as data.
use crate::fixture::Item;
use crate::rows::{Row, Wanted};
use base_lib::BaseFn;

pub const NUMBER_ROWS: &[Row] = &[
    (
        BaseFn::ToNumber,
        &[Item::Int(5)],
        Wanted::Gives(&[Item::Int(5)]),
    ),
    (
        BaseFn::ToNumber,
        &[Item::Int(i64::MIN)],
        Wanted::Gives(&[Item::Int(i64::MIN)]),
    ),
    (
        BaseFn::ToNumber,
        &[Item::Text("12")],
        Wanted::Gives(&[Item::Int(12)]),
    ),
    (
        BaseFn::ToNumber,
        &[Item::Text("-12")],
        Wanted::Gives(&[Item::Int(-12)]),
    ),
    (
        BaseFn::ToNumber,
        &[Item::Text("+7")],
        Wanted::Gives(&[Item::Int(7)]),
    ),
    (
        BaseFn::ToNumber,
        &[Item::Text("  8  ")],
        Wanted::Gives(&[Item::Int(8)]),
    ),
    (
        BaseFn::ToNumber,
        &[Item::Text("0x1F")],
        Wanted::Gives(&[Item::Int(31)]),
    ),
    (
        BaseFn::ToNumber,
        &[Item::Text("-0Xff")],
        Wanted::Gives(&[Item::Int(-255)]),
    ),
    (
        BaseFn::ToNumber,
        &[Item::Text("9223372036854775807")],
        Wanted::Gives(&[Item::Int(i64::MAX)]),
    ),
    (
        BaseFn::ToNumber,
        &[Item::Text("-9223372036854775808")],
        Wanted::Gives(&[Item::Int(i64::MIN)]),
    ),
    (
        BaseFn::ToNumber,
        &[Item::Text("9223372036854775808")],
        Wanted::Gives(&[Item::Nil]),
    ),
    (
        BaseFn::ToNumber,
        &[Item::Text("0xffffffffffffffff")],
        Wanted::Gives(&[Item::Int(-1)]),
    ),
    (
        BaseFn::ToNumber,
        &[Item::Text("")],
        Wanted::Gives(&[Item::Nil]),
    ),
    (
        BaseFn::ToNumber,
        &[Item::Text(" ")],
        Wanted::Gives(&[Item::Nil]),
    ),
    (
        BaseFn::ToNumber,
        &[Item::Text("1 2")],
        Wanted::Gives(&[Item::Nil]),
    ),
    (
        BaseFn::ToNumber,
        &[Item::Text("1.5")],
        Wanted::Gives(&[Item::Nil]),
    ),
    (
        BaseFn::ToNumber,
        &[Item::Text("1e3")],
        Wanted::Gives(&[Item::Nil]),
    ),
    (
        BaseFn::ToNumber,
        &[Item::Text("0x")],
        Wanted::Gives(&[Item::Nil]),
    ),
    (
        BaseFn::ToNumber,
        &[Item::Text("- 1")],
        Wanted::Gives(&[Item::Nil]),
    ),
    (
        BaseFn::ToNumber,
        &[Item::Text("abc")],
        Wanted::Gives(&[Item::Nil]),
    ),
    (BaseFn::ToNumber, &[Item::Nil], Wanted::Gives(&[Item::Nil])),
    (BaseFn::ToNumber, &[Item::Yes], Wanted::Gives(&[Item::Nil])),
    (BaseFn::ToNumber, &[Item::No], Wanted::Gives(&[Item::Nil])),
    (
        BaseFn::ToNumber,
        &[Item::Lib(3)],
        Wanted::Gives(&[Item::Nil]),
    ),
    (
        BaseFn::ToNumber,
        &[Item::Linda(1)],
        Wanted::Gives(&[Item::Nil]),
    ),
    (BaseFn::ToNumber, &[Item::List], Wanted::Gives(&[Item::Nil])),
    (BaseFn::ToNumber, &[], Wanted::Bad(1)),
    (
        BaseFn::ToNumber,
        &[Item::Text("7"), Item::Nil],
        Wanted::Gives(&[Item::Int(7)]),
    ),
    (
        BaseFn::ToNumber,
        &[Item::Text("101"), Item::Int(2)],
        Wanted::Gives(&[Item::Int(5)]),
    ),
    (
        BaseFn::ToNumber,
        &[Item::Text("102"), Item::Int(2)],
        Wanted::Gives(&[Item::Nil]),
    ),
    (
        BaseFn::ToNumber,
        &[Item::Text("777"), Item::Int(8)],
        Wanted::Gives(&[Item::Int(511)]),
    ),
    (
        BaseFn::ToNumber,
        &[Item::Text("ff"), Item::Int(16)],
        Wanted::Gives(&[Item::Int(255)]),
    ),
    (
        BaseFn::ToNumber,
        &[Item::Text("FF"), Item::Int(16)],
        Wanted::Gives(&[Item::Int(255)]),
    ),
    (
        BaseFn::ToNumber,
        &[Item::Text("fg"), Item::Int(16)],
        Wanted::Gives(&[Item::Nil]),
    ),
    (
        BaseFn::ToNumber,
        &[Item::Text("z"), Item::Int(36)],
        Wanted::Gives(&[Item::Int(35)]),
    ),
    (
        BaseFn::ToNumber,
        &[Item::Text("Zz"), Item::Int(36)],
        Wanted::Gives(&[Item::Int(1295)]),
    ),
    (
        BaseFn::ToNumber,
        &[Item::Text("-11"), Item::Int(3)],
        Wanted::Gives(&[Item::Int(-4)]),
    ),
    (
        BaseFn::ToNumber,
        &[Item::Text("  11  "), Item::Int(10)],
        Wanted::Gives(&[Item::Int(11)]),
    ),
    (
        BaseFn::ToNumber,
        &[Item::Text("+11"), Item::Int(10)],
        Wanted::Gives(&[Item::Int(11)]),
    ),
    (
        BaseFn::ToNumber,
        &[Item::Text(""), Item::Int(10)],
        Wanted::Gives(&[Item::Nil]),
    ),
    (
        BaseFn::ToNumber,
        &[Item::Text("  "), Item::Int(10)],
        Wanted::Gives(&[Item::Nil]),
    ),
    (
        BaseFn::ToNumber,
        &[Item::Text("-"), Item::Int(10)],
        Wanted::Gives(&[Item::Nil]),
    ),
    (
        BaseFn::ToNumber,
        &[Item::Text("1.0"), Item::Int(10)],
        Wanted::Gives(&[Item::Nil]),
    ),
    (
        BaseFn::ToNumber,
        &[Item::Text("0x10"), Item::Int(16)],
        Wanted::Gives(&[Item::Nil]),
    ),
    (
        BaseFn::ToNumber,
        &[Item::Text("ffffffffffffffff"), Item::Int(16)],
        Wanted::Gives(&[Item::Int(-1)]),
    ),
    (
        BaseFn::ToNumber,
        &[Item::Text("10000000000000000"), Item::Int(16)],
        Wanted::Gives(&[Item::Int(0)]),
    ),
    (
        BaseFn::ToNumber,
        &[Item::Text("18446744073709551617"), Item::Int(10)],
        Wanted::Gives(&[Item::Int(1)]),
    ),
    (
        BaseFn::ToNumber,
        &[Item::Text("11"), Item::Text("2")],
        Wanted::Gives(&[Item::Int(3)]),
    ),
    (
        BaseFn::ToNumber,
        &[Item::Int(11), Item::Int(2)],
        Wanted::Bad(1),
    ),
    (BaseFn::ToNumber, &[Item::Nil, Item::Int(2)], Wanted::Bad(1)),
    (
        BaseFn::ToNumber,
        &[Item::Text("11"), Item::Int(1)],
        Wanted::Bad(2),
    ),
    (
        BaseFn::ToNumber,
        &[Item::Text("11"), Item::Int(37)],
        Wanted::Bad(2),
    ),
    (
        BaseFn::ToNumber,
        &[Item::Text("11"), Item::Int(-2)],
        Wanted::Bad(2),
    ),
    (
        BaseFn::ToNumber,
        &[Item::Text("11"), Item::Yes],
        Wanted::Bad(2),
    ),
    (
        BaseFn::ToNumber,
        &[Item::Text("11"), Item::Text("x")],
        Wanted::Bad(2),
    ),
    (
        BaseFn::ToNumber,
        &[Item::Int(1), Item::Text("x")],
        Wanted::Bad(1),
    ),
    (
        BaseFn::ToNumber,
        &[Item::Text("11"), Item::Int(i64::MAX)],
        Wanted::Bad(2),
    ),
];

pub const MATH_ROWS: &[Row] = &[
    (BaseFn::Abs, &[Item::Int(5)], Wanted::Gives(&[Item::Int(5)])),
    (
        BaseFn::Abs,
        &[Item::Int(-5)],
        Wanted::Gives(&[Item::Int(5)]),
    ),
    (BaseFn::Abs, &[Item::Int(0)], Wanted::Gives(&[Item::Int(0)])),
    (
        BaseFn::Abs,
        &[Item::Int(i64::MAX)],
        Wanted::Gives(&[Item::Int(i64::MAX)]),
    ),
    (
        BaseFn::Abs,
        &[Item::Int(i64::MIN)],
        Wanted::Gives(&[Item::Int(i64::MIN)]),
    ),
    (
        BaseFn::Abs,
        &[Item::Text("-3")],
        Wanted::Gives(&[Item::Int(3)]),
    ),
    (BaseFn::Abs, &[], Wanted::Bad(1)),
    (BaseFn::Abs, &[Item::Nil], Wanted::Bad(1)),
    (BaseFn::Abs, &[Item::Text("x")], Wanted::Bad(1)),
    (
        BaseFn::Floor,
        &[Item::Int(-5)],
        Wanted::Gives(&[Item::Int(-5)]),
    ),
    (
        BaseFn::Floor,
        &[Item::Text("7")],
        Wanted::Gives(&[Item::Int(7)]),
    ),
    (
        BaseFn::Floor,
        &[Item::Int(i64::MIN)],
        Wanted::Gives(&[Item::Int(i64::MIN)]),
    ),
    (BaseFn::Floor, &[], Wanted::Bad(1)),
    (BaseFn::Floor, &[Item::List], Wanted::Bad(1)),
    (BaseFn::Max, &[Item::Int(1)], Wanted::Gives(&[Item::Int(1)])),
    (
        BaseFn::Max,
        &[Item::Int(1), Item::Int(3), Item::Int(2)],
        Wanted::Gives(&[Item::Int(3)]),
    ),
    (
        BaseFn::Max,
        &[Item::Int(i64::MIN), Item::Int(i64::MAX)],
        Wanted::Gives(&[Item::Int(i64::MAX)]),
    ),
    (
        BaseFn::Max,
        &[Item::Text("4"), Item::Int(3)],
        Wanted::Gives(&[Item::Int(4)]),
    ),
    (BaseFn::Max, &[], Wanted::Bad(1)),
    (BaseFn::Max, &[Item::Nil], Wanted::Bad(1)),
    (BaseFn::Max, &[Item::Int(1), Item::Nil], Wanted::Bad(2)),
    (
        BaseFn::Max,
        &[Item::Int(1), Item::Int(2), Item::Text("x"), Item::Nil],
        Wanted::Bad(3),
    ),
    (
        BaseFn::Max,
        &[Item::Int(-1), Item::Int(-2)],
        Wanted::Gives(&[Item::Int(-1)]),
    ),
    (BaseFn::Min, &[Item::Int(1)], Wanted::Gives(&[Item::Int(1)])),
    (
        BaseFn::Min,
        &[Item::Int(2), Item::Int(1), Item::Int(3)],
        Wanted::Gives(&[Item::Int(1)]),
    ),
    (
        BaseFn::Min,
        &[Item::Int(i64::MAX), Item::Int(i64::MIN)],
        Wanted::Gives(&[Item::Int(i64::MIN)]),
    ),
    (BaseFn::Min, &[], Wanted::Bad(1)),
    (
        BaseFn::Min,
        &[Item::Int(1), Item::Int(1), Item::Yes],
        Wanted::Bad(3),
    ),
    (
        BaseFn::Min,
        &[Item::Int(-1), Item::Int(-2)],
        Wanted::Gives(&[Item::Int(-2)]),
    ),
    (
        BaseFn::ToInteger,
        &[Item::Int(3)],
        Wanted::Gives(&[Item::Int(3)]),
    ),
    (
        BaseFn::ToInteger,
        &[Item::Text("3")],
        Wanted::Gives(&[Item::Nil]),
    ),
    (BaseFn::ToInteger, &[Item::Nil], Wanted::Gives(&[Item::Nil])),
    (
        BaseFn::ToInteger,
        &[Item::List],
        Wanted::Gives(&[Item::Nil]),
    ),
    (BaseFn::ToInteger, &[], Wanted::Bad(1)),
    (
        BaseFn::MathType,
        &[Item::Int(3)],
        Wanted::Gives(&[Item::Text("integer")]),
    ),
    (
        BaseFn::MathType,
        &[Item::Text("3")],
        Wanted::Gives(&[Item::Nil]),
    ),
    (BaseFn::MathType, &[Item::Nil], Wanted::Gives(&[Item::Nil])),
    (BaseFn::MathType, &[], Wanted::Bad(1)),
    (
        BaseFn::Ult,
        &[Item::Int(1), Item::Int(2)],
        Wanted::Gives(&[Item::Yes]),
    ),
    (
        BaseFn::Ult,
        &[Item::Int(2), Item::Int(1)],
        Wanted::Gives(&[Item::No]),
    ),
    (
        BaseFn::Ult,
        &[Item::Int(1), Item::Int(1)],
        Wanted::Gives(&[Item::No]),
    ),
    (
        BaseFn::Ult,
        &[Item::Int(1), Item::Int(-1)],
        Wanted::Gives(&[Item::Yes]),
    ),
    (
        BaseFn::Ult,
        &[Item::Int(-1), Item::Int(1)],
        Wanted::Gives(&[Item::No]),
    ),
    (
        BaseFn::Ult,
        &[Item::Int(i64::MAX), Item::Int(i64::MIN)],
        Wanted::Gives(&[Item::Yes]),
    ),
    (
        BaseFn::Ult,
        &[Item::Int(-2), Item::Int(-1)],
        Wanted::Gives(&[Item::Yes]),
    ),
    (BaseFn::Ult, &[], Wanted::Bad(1)),
    (BaseFn::Ult, &[Item::Int(1)], Wanted::Bad(2)),
    (BaseFn::Ult, &[Item::Nil, Item::Int(1)], Wanted::Bad(1)),
    (
        BaseFn::Ult,
        &[Item::Int(1), Item::Text("x")],
        Wanted::Bad(2),
    ),
    (
        BaseFn::Ult,
        &[Item::Text("1"), Item::Text("2")],
        Wanted::Gives(&[Item::Yes]),
    ),
];
