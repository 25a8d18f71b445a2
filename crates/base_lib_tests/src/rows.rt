//! What each function answers, as data.
use crate::fixture::Item;
use base_lib::BaseFn;

/// What a call answers.
#[derive(Clone, Copy)]
pub enum Wanted {
    /// These values.
    Gives(&'static [Item]),
    /// `BadArgument` with this number, under the function's name.
    Bad(u64),
    NilKey,
    DeadKey,
    Protected,
}

/// The function, its arguments, and what it answers.
pub type Row = (BaseFn, &'static [Item], Wanted);

pub const VALUE_ROWS: &[Row] = &[
    (
        BaseFn::Type,
        &[Item::Nil],
        Wanted::Gives(&[Item::Text("nil")]),
    ),
    (
        BaseFn::Type,
        &[Item::Yes],
        Wanted::Gives(&[Item::Text("boolean")]),
    ),
    (
        BaseFn::Type,
        &[Item::No],
        Wanted::Gives(&[Item::Text("boolean")]),
    ),
    (
        BaseFn::Type,
        &[Item::Int(5)],
        Wanted::Gives(&[Item::Text("number")]),
    ),
    (
        BaseFn::Type,
        &[Item::Text("x")],
        Wanted::Gives(&[Item::Text("string")]),
    ),
    (
        BaseFn::Type,
        &[Item::Lib(3)],
        Wanted::Gives(&[Item::Text("function")]),
    ),
    (
        BaseFn::Type,
        &[Item::Linda(1)],
        Wanted::Gives(&[Item::Text("userdata")]),
    ),
    (
        BaseFn::Type,
        &[Item::Lane(2)],
        Wanted::Gives(&[Item::Text("userdata")]),
    ),
    (
        BaseFn::Type,
        &[Item::Light(0)],
        Wanted::Gives(&[Item::Text("userdata")]),
    ),
    (
        BaseFn::Type,
        &[Item::List],
        Wanted::Gives(&[Item::Text("table")]),
    ),
    (BaseFn::Type, &[], Wanted::Bad(1)),
    (
        BaseFn::Type,
        &[Item::Int(1), Item::Int(2)],
        Wanted::Gives(&[Item::Text("number")]),
    ),
    (
        BaseFn::RawEqual,
        &[Item::Int(1), Item::Int(1)],
        Wanted::Gives(&[Item::Yes]),
    ),
    (
        BaseFn::RawEqual,
        &[Item::Int(1), Item::Int(2)],
        Wanted::Gives(&[Item::No]),
    ),
    (
        BaseFn::RawEqual,
        &[Item::Int(1), Item::Text("1")],
        Wanted::Gives(&[Item::No]),
    ),
    (
        BaseFn::RawEqual,
        &[Item::Text("a"), Item::Text("a")],
        Wanted::Gives(&[Item::Yes]),
    ),
    (
        BaseFn::RawEqual,
        &[Item::List, Item::List],
        Wanted::Gives(&[Item::Yes]),
    ),
    (
        BaseFn::RawEqual,
        &[Item::Object, Item::Meta],
        Wanted::Gives(&[Item::No]),
    ),
    (
        BaseFn::RawEqual,
        &[Item::Nil, Item::Nil],
        Wanted::Gives(&[Item::Yes]),
    ),
    (
        BaseFn::RawEqual,
        &[Item::Nil, Item::No],
        Wanted::Gives(&[Item::No]),
    ),
    (
        BaseFn::RawEqual,
        &[Item::Linda(1), Item::Lane(1)],
        Wanted::Gives(&[Item::No]),
    ),
    (
        BaseFn::RawEqual,
        &[Item::Lib(3), Item::Lib(3)],
        Wanted::Gives(&[Item::Yes]),
    ),
    (
        BaseFn::RawEqual,
        &[Item::Light(0), Item::Light(1)],
        Wanted::Gives(&[Item::No]),
    ),
    (BaseFn::RawEqual, &[], Wanted::Bad(1)),
    (BaseFn::RawEqual, &[Item::Int(1)], Wanted::Bad(2)),
    (
        BaseFn::RawEqual,
        &[Item::Yes, Item::Yes, Item::No],
        Wanted::Gives(&[Item::Yes]),
    ),
    (
        BaseFn::Select,
        &[Item::Text("#")],
        Wanted::Gives(&[Item::Int(0)]),
    ),
    (
        BaseFn::Select,
        &[Item::Text("#"), Item::Nil, Item::Nil],
        Wanted::Gives(&[Item::Int(2)]),
    ),
    (
        BaseFn::Select,
        &[Item::Int(1), Item::Int(7), Item::Int(8), Item::Int(9)],
        Wanted::Gives(&[Item::Int(7), Item::Int(8), Item::Int(9)]),
    ),
    (
        BaseFn::Select,
        &[Item::Int(2), Item::Int(7), Item::Int(8), Item::Int(9)],
        Wanted::Gives(&[Item::Int(8), Item::Int(9)]),
    ),
    (
        BaseFn::Select,
        &[Item::Int(3), Item::Int(7), Item::Int(8), Item::Int(9)],
        Wanted::Gives(&[Item::Int(9)]),
    ),
    (
        BaseFn::Select,
        &[Item::Int(4), Item::Int(7), Item::Int(8), Item::Int(9)],
        Wanted::Gives(&[]),
    ),
    (
        BaseFn::Select,
        &[Item::Int(99), Item::Int(7)],
        Wanted::Gives(&[]),
    ),
    (
        BaseFn::Select,
        &[Item::Int(i64::MAX), Item::Int(7)],
        Wanted::Gives(&[]),
    ),
    (BaseFn::Select, &[Item::Int(1)], Wanted::Gives(&[])),
    (
        BaseFn::Select,
        &[Item::Int(-1), Item::Int(7), Item::Int(8), Item::Int(9)],
        Wanted::Gives(&[Item::Int(9)]),
    ),
    (
        BaseFn::Select,
        &[Item::Int(-2), Item::Int(7), Item::Int(8), Item::Int(9)],
        Wanted::Gives(&[Item::Int(8), Item::Int(9)]),
    ),
    (
        BaseFn::Select,
        &[Item::Int(-3), Item::Int(7), Item::Int(8), Item::Int(9)],
        Wanted::Gives(&[Item::Int(7), Item::Int(8), Item::Int(9)]),
    ),
    (
        BaseFn::Select,
        &[Item::Int(-4), Item::Int(7), Item::Int(8), Item::Int(9)],
        Wanted::Bad(1),
    ),
    (BaseFn::Select, &[Item::Int(-1)], Wanted::Bad(1)),
    (
        BaseFn::Select,
        &[Item::Int(0), Item::Int(7)],
        Wanted::Bad(1),
    ),
    (
        BaseFn::Select,
        &[Item::Int(i64::MIN), Item::Int(7)],
        Wanted::Bad(1),
    ),
    (BaseFn::Select, &[], Wanted::Bad(1)),
    (BaseFn::Select, &[Item::Nil, Item::Int(7)], Wanted::Bad(1)),
    (
        BaseFn::Select,
        &[Item::Text("2"), Item::Int(7), Item::Int(8)],
        Wanted::Gives(&[Item::Int(8)]),
    ),
    (
        BaseFn::Select,
        &[Item::Text("##"), Item::Int(7)],
        Wanted::Bad(1),
    ),
    (BaseFn::Select, &[Item::List, Item::Int(7)], Wanted::Bad(1)),
    (
        BaseFn::GetMetatable,
        &[Item::Nil],
        Wanted::Gives(&[Item::Nil]),
    ),
    (
        BaseFn::GetMetatable,
        &[Item::Int(1)],
        Wanted::Gives(&[Item::Nil]),
    ),
    (
        BaseFn::GetMetatable,
        &[Item::Text("s")],
        Wanted::Gives(&[Item::Nil]),
    ),
    (
        BaseFn::GetMetatable,
        &[Item::List],
        Wanted::Gives(&[Item::Nil]),
    ),
    (
        BaseFn::GetMetatable,
        &[Item::Object],
        Wanted::Gives(&[Item::Meta]),
    ),
    (
        BaseFn::GetMetatable,
        &[Item::Guarded],
        Wanted::Gives(&[Item::Text("locked")]),
    ),
    (BaseFn::GetMetatable, &[], Wanted::Bad(1)),
    (
        BaseFn::GetMetatable,
        &[Item::Linda(1)],
        Wanted::Gives(&[Item::Nil]),
    ),
    (
        BaseFn::GetMetatable,
        &[Item::Lib(2)],
        Wanted::Gives(&[Item::Nil]),
    ),
    (
        BaseFn::GetMetatable,
        &[Item::Object, Item::List],
        Wanted::Gives(&[Item::Meta]),
    ),
    (
        BaseFn::Ipairs,
        &[Item::List],
        Wanted::Gives(&[Item::Lib(4), Item::List, Item::Int(0)]),
    ),
    (
        BaseFn::Ipairs,
        &[Item::Nil],
        Wanted::Gives(&[Item::Lib(4), Item::Nil, Item::Int(0)]),
    ),
    (BaseFn::Ipairs, &[], Wanted::Bad(1)),
    (
        BaseFn::Ipairs,
        &[Item::Int(3), Item::Int(4)],
        Wanted::Gives(&[Item::Lib(4), Item::Int(3), Item::Int(0)]),
    ),
];
