//! What the functions of tables answer, as data.
use crate::fixture::Item;
use crate::rows::{Row, Wanted};
use base_lib::BaseFn;

pub const TABLE_ROWS: &[Row] = &[
    (
        BaseFn::Next,
        &[Item::List],
        Wanted::Gives(&[Item::Int(1), Item::Int(10)]),
    ),
    (
        BaseFn::Next,
        &[Item::List, Item::Nil],
        Wanted::Gives(&[Item::Int(1), Item::Int(10)]),
    ),
    (
        BaseFn::Next,
        &[Item::List, Item::Int(1)],
        Wanted::Gives(&[Item::Int(2), Item::Int(20)]),
    ),
    (
        BaseFn::Next,
        &[Item::List, Item::Int(2)],
        Wanted::Gives(&[Item::Int(3), Item::Int(30)]),
    ),
    (
        BaseFn::Next,
        &[Item::List, Item::Int(3)],
        Wanted::Gives(&[Item::Text("k"), Item::Yes]),
    ),
    (
        BaseFn::Next,
        &[Item::List, Item::Text("k")],
        Wanted::Gives(&[Item::Nil]),
    ),
    (BaseFn::Next, &[Item::Meta], Wanted::Gives(&[Item::Nil])),
    (BaseFn::Next, &[Item::List, Item::Int(4)], Wanted::DeadKey),
    (
        BaseFn::Next,
        &[Item::List, Item::Text("1")],
        Wanted::DeadKey,
    ),
    (BaseFn::Next, &[Item::Meta, Item::Int(1)], Wanted::DeadKey),
    (BaseFn::Next, &[], Wanted::Bad(1)),
    (BaseFn::Next, &[Item::Nil], Wanted::Bad(1)),
    (BaseFn::Next, &[Item::Text("k")], Wanted::Bad(1)),
    (BaseFn::Next, &[Item::Int(1), Item::Int(1)], Wanted::Bad(1)),
    (
        BaseFn::RawGet,
        &[Item::List, Item::Int(2)],
        Wanted::Gives(&[Item::Int(20)]),
    ),
    (
        BaseFn::RawGet,
        &[Item::List, Item::Text("k")],
        Wanted::Gives(&[Item::Yes]),
    ),
    (
        BaseFn::RawGet,
        &[Item::List, Item::Text("2")],
        Wanted::Gives(&[Item::Nil]),
    ),
    (
        BaseFn::RawGet,
        &[Item::List, Item::Nil],
        Wanted::Gives(&[Item::Nil]),
    ),
    (
        BaseFn::RawGet,
        &[Item::Object, Item::Int(1)],
        Wanted::Gives(&[Item::Nil]),
    ),
    (BaseFn::RawGet, &[], Wanted::Bad(1)),
    (BaseFn::RawGet, &[Item::List], Wanted::Bad(2)),
    (
        BaseFn::RawGet,
        &[Item::Text("k"), Item::Int(1)],
        Wanted::Bad(1),
    ),
    (
        BaseFn::RawGet,
        &[Item::Linda(1), Item::Int(1)],
        Wanted::Bad(1),
    ),
    (
        BaseFn::RawGet,
        &[Item::List, Item::Int(3), Item::Int(1)],
        Wanted::Gives(&[Item::Int(30)]),
    ),
    (
        BaseFn::RawLen,
        &[Item::List],
        Wanted::Gives(&[Item::Int(3)]),
    ),
    (
        BaseFn::RawLen,
        &[Item::Meta],
        Wanted::Gives(&[Item::Int(0)]),
    ),
    (
        BaseFn::RawLen,
        &[Item::Text("")],
        Wanted::Gives(&[Item::Int(0)]),
    ),
    (
        BaseFn::RawLen,
        &[Item::Text("hello")],
        Wanted::Gives(&[Item::Int(5)]),
    ),
    (BaseFn::RawLen, &[], Wanted::Bad(1)),
    (BaseFn::RawLen, &[Item::Nil], Wanted::Bad(1)),
    (BaseFn::RawLen, &[Item::Int(12)], Wanted::Bad(1)),
    (BaseFn::RawLen, &[Item::Yes], Wanted::Bad(1)),
    (BaseFn::RawLen, &[Item::Lib(0)], Wanted::Bad(1)),
    (
        BaseFn::RawSet,
        &[Item::Meta, Item::Int(1), Item::Int(2)],
        Wanted::Gives(&[Item::Meta]),
    ),
    (
        BaseFn::RawSet,
        &[Item::Meta, Item::Nil, Item::Int(2)],
        Wanted::NilKey,
    ),
    (
        BaseFn::RawSet,
        &[Item::Meta, Item::Nil, Item::Nil],
        Wanted::NilKey,
    ),
    (BaseFn::RawSet, &[], Wanted::Bad(1)),
    (BaseFn::RawSet, &[Item::Meta], Wanted::Bad(2)),
    (BaseFn::RawSet, &[Item::Meta, Item::Int(1)], Wanted::Bad(3)),
    (BaseFn::RawSet, &[Item::Meta, Item::Nil], Wanted::Bad(3)),
    (
        BaseFn::RawSet,
        &[Item::Int(1), Item::Int(1), Item::Int(1)],
        Wanted::Bad(1),
    ),
    (
        BaseFn::RawSet,
        &[Item::Meta, Item::Int(1), Item::Nil],
        Wanted::Gives(&[Item::Meta]),
    ),
    (
        BaseFn::SetMetatable,
        &[Item::List, Item::Meta],
        Wanted::Gives(&[Item::List]),
    ),
    (
        BaseFn::SetMetatable,
        &[Item::List, Item::Nil],
        Wanted::Gives(&[Item::List]),
    ),
    (
        BaseFn::SetMetatable,
        &[Item::Guarded, Item::Meta],
        Wanted::Protected,
    ),
    (
        BaseFn::SetMetatable,
        &[Item::Guarded, Item::Nil],
        Wanted::Protected,
    ),
    (
        BaseFn::SetMetatable,
        &[Item::Guarded, Item::Int(1)],
        Wanted::Bad(2),
    ),
    (BaseFn::SetMetatable, &[Item::List], Wanted::Bad(2)),
    (
        BaseFn::SetMetatable,
        &[Item::List, Item::No],
        Wanted::Bad(2),
    ),
    (BaseFn::SetMetatable, &[], Wanted::Bad(1)),
    (
        BaseFn::SetMetatable,
        &[Item::Text("x"), Item::Meta],
        Wanted::Bad(1),
    ),
    (
        BaseFn::SetMetatable,
        &[Item::Nil, Item::Meta],
        Wanted::Bad(1),
    ),
];

pub const CHANGES: &[Row] = &[
    (
        BaseFn::RawSet,
        &[Item::Meta, Item::Text("a"), Item::Int(1)],
        Wanted::Gives(&[Item::Meta]),
    ),
    (
        BaseFn::RawGet,
        &[Item::Meta, Item::Text("a")],
        Wanted::Gives(&[Item::Int(1)]),
    ),
    (
        BaseFn::RawSet,
        &[Item::Meta, Item::Text("a"), Item::Int(2)],
        Wanted::Gives(&[Item::Meta]),
    ),
    (
        BaseFn::RawGet,
        &[Item::Meta, Item::Text("a")],
        Wanted::Gives(&[Item::Int(2)]),
    ),
    (
        BaseFn::RawSet,
        &[Item::Meta, Item::Text("b"), Item::Int(3)],
        Wanted::Gives(&[Item::Meta]),
    ),
    (
        BaseFn::Next,
        &[Item::Meta, Item::Text("a")],
        Wanted::Gives(&[Item::Text("b"), Item::Int(3)]),
    ),
    (
        BaseFn::RawSet,
        &[Item::Meta, Item::Text("a"), Item::Nil],
        Wanted::Gives(&[Item::Meta]),
    ),
    (
        BaseFn::Next,
        &[Item::Meta],
        Wanted::Gives(&[Item::Text("b"), Item::Int(3)]),
    ),
    (
        BaseFn::Next,
        &[Item::Meta, Item::Text("a")],
        Wanted::Gives(&[Item::Text("b"), Item::Int(3)]),
    ),
    (
        BaseFn::RawSet,
        &[Item::Meta, Item::Nil, Item::Int(1)],
        Wanted::NilKey,
    ),
    (
        BaseFn::RawGet,
        &[Item::Meta, Item::Text("b")],
        Wanted::Gives(&[Item::Int(3)]),
    ),
    (
        BaseFn::RawSet,
        &[Item::List, Item::Int(4), Item::Int(40)],
        Wanted::Gives(&[Item::List]),
    ),
    (
        BaseFn::RawLen,
        &[Item::List],
        Wanted::Gives(&[Item::Int(4)]),
    ),
    (
        BaseFn::RawSet,
        &[Item::List, Item::Int(2), Item::Nil],
        Wanted::Gives(&[Item::List]),
    ),
    (
        BaseFn::RawLen,
        &[Item::List],
        Wanted::Gives(&[Item::Int(1)]),
    ),
    (
        BaseFn::SetMetatable,
        &[Item::List, Item::Meta],
        Wanted::Gives(&[Item::List]),
    ),
    (
        BaseFn::GetMetatable,
        &[Item::List],
        Wanted::Gives(&[Item::Meta]),
    ),
    (
        BaseFn::RawSet,
        &[Item::Meta, Item::Text("__metatable"), Item::No],
        Wanted::Gives(&[Item::Meta]),
    ),
    (
        BaseFn::GetMetatable,
        &[Item::List],
        Wanted::Gives(&[Item::No]),
    ),
    (
        BaseFn::SetMetatable,
        &[Item::List, Item::Nil],
        Wanted::Protected,
    ),
    (
        BaseFn::GetMetatable,
        &[Item::List],
        Wanted::Gives(&[Item::No]),
    ),
    (
        BaseFn::RawSet,
        &[Item::Meta, Item::Text("__metatable"), Item::Nil],
        Wanted::Gives(&[Item::Meta]),
    ),
    (
        BaseFn::SetMetatable,
        &[Item::List, Item::Nil],
        Wanted::Gives(&[Item::List]),
    ),
    (
        BaseFn::GetMetatable,
        &[Item::List],
        Wanted::Gives(&[Item::Nil]),
    ),
];
