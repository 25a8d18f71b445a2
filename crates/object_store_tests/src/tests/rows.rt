//! What a script sees of a table, as data: each row is a list of steps on a table of its own.

/// A key or a value of a row. A to D are texts, and `AAgain` is the text A, interned again.
#[derive(Clone, Copy)]
pub enum Item {
    Nil,
    Yes,
    No,
    Int(i64),
    Lib(u64),
    Linda(u64),
    Lane(u64),
    Light(u64),
    Globals,
    A,
    AAgain,
    B,
    C,
    D,
}

/// One call and what it answers.
#[derive(Clone, Copy)]
pub enum Step {
    /// `set` of a key and a value succeeds.
    Set(Item, Item),
    /// `set` of a nil key is refused, whatever the value.
    NilKey(Item),
    /// `get` of a key answers a value.
    Get(Item, Item),
    /// `next` of a key answers the pair of this key.
    Next(Item, Item),
    /// `next` of a key answers that there is no further pair.
    Ends(Item),
    /// `next` of a key is refused.
    Dead(Item),
    /// `border` answers a number.
    Border(i64),
}

/// What the row shows, and its steps.
pub type Row = (&'static str, &'static [Step]);

pub const PURGE_ROWS: &[Row] = &[
    (
        "a new table",
        &[
            Step::Get(Item::Int(1), Item::Nil),
            Step::Ends(Item::Nil),
            Step::Dead(Item::Int(1)),
            Step::Border(0),
        ],
    ),
    (
        "a nil key is refused whatever the value",
        &[
            Step::NilKey(Item::Yes),
            Step::NilKey(Item::Nil),
            Step::Ends(Item::Nil),
        ],
    ),
    (
        "a nil key reads as nil",
        &[
            Step::Set(Item::Int(1), Item::Yes),
            Step::Get(Item::Nil, Item::Nil),
        ],
    ),
    (
        "nil for a new key changes nothing",
        &[
            Step::Set(Item::Int(1), Item::Nil),
            Step::Ends(Item::Nil),
            Step::Dead(Item::Int(1)),
        ],
    ),
    (
        "two dead pairs outnumber one live pair, and go before the new pair is added",
        &[
            Step::Set(Item::Int(1), Item::Yes),
            Step::Set(Item::Int(2), Item::Yes),
            Step::Set(Item::Int(3), Item::Yes),
            Step::Border(3),
            Step::Set(Item::Int(1), Item::Nil),
            Step::Set(Item::Int(2), Item::Nil),
            Step::Next(Item::Int(1), Item::Int(3)),
            Step::Border(0),
            Step::Set(Item::Int(4), Item::Yes),
            Step::Dead(Item::Int(1)),
            Step::Dead(Item::Int(2)),
            Step::Next(Item::Nil, Item::Int(3)),
            Step::Next(Item::Int(3), Item::Int(4)),
            Step::Ends(Item::Int(4)),
        ],
    ),
    (
        "as many dead as live: they stay",
        &[
            Step::Set(Item::Int(1), Item::Yes),
            Step::Set(Item::Int(2), Item::Yes),
            Step::Set(Item::Int(1), Item::Nil),
            Step::Set(Item::Int(3), Item::Yes),
            Step::Next(Item::Int(1), Item::Int(2)),
            Step::Next(Item::Int(2), Item::Int(3)),
        ],
    ),
    (
        "dead pairs are weighed without the new pair",
        &[
            Step::Set(Item::Int(1), Item::Yes),
            Step::Set(Item::Int(1), Item::Nil),
            Step::Set(Item::Int(2), Item::Yes),
            Step::Dead(Item::Int(1)),
            Step::Next(Item::Nil, Item::Int(2)),
        ],
    ),
    (
        "a set of a key that has a pair purges nothing",
        &[
            Step::Set(Item::Int(1), Item::Yes),
            Step::Set(Item::Int(2), Item::Yes),
            Step::Set(Item::Int(3), Item::Yes),
            Step::Set(Item::Int(1), Item::Nil),
            Step::Set(Item::Int(2), Item::Nil),
            Step::Set(Item::Int(3), Item::No),
            Step::Next(Item::Int(1), Item::Int(3)),
            Step::Next(Item::Int(2), Item::Int(3)),
        ],
    ),
    (
        "clearing purges nothing",
        &[
            Step::Set(Item::Int(1), Item::Yes),
            Step::Set(Item::Int(2), Item::Yes),
            Step::Set(Item::Int(1), Item::Nil),
            Step::Set(Item::Int(2), Item::Nil),
            Step::Set(Item::Int(9), Item::Nil),
            Step::Ends(Item::Int(1)),
            Step::Ends(Item::Int(2)),
            Step::Dead(Item::Int(9)),
        ],
    ),
    (
        "a revived pair keeps its place",
        &[
            Step::Set(Item::A, Item::Yes),
            Step::Set(Item::B, Item::Yes),
            Step::Set(Item::C, Item::Yes),
            Step::Set(Item::A, Item::Nil),
            Step::Set(Item::B, Item::Nil),
            Step::Set(Item::C, Item::Nil),
            Step::Set(Item::B, Item::Yes),
            Step::Set(Item::D, Item::Yes),
            Step::Set(Item::A, Item::Yes),
            Step::Next(Item::Nil, Item::B),
            Step::Next(Item::B, Item::D),
            Step::Next(Item::D, Item::A),
            Step::Ends(Item::A),
        ],
    ),
    (
        "a revived pair before the purge",
        &[
            Step::Set(Item::A, Item::Yes),
            Step::Set(Item::B, Item::Yes),
            Step::Set(Item::C, Item::Yes),
            Step::Set(Item::B, Item::Nil),
            Step::Set(Item::B, Item::No),
            Step::Next(Item::A, Item::B),
            Step::Next(Item::B, Item::C),
            Step::Get(Item::B, Item::No),
        ],
    ),
    (
        "a dead last pair",
        &[
            Step::Set(Item::A, Item::Yes),
            Step::Set(Item::B, Item::Yes),
            Step::Set(Item::B, Item::Nil),
            Step::Ends(Item::A),
            Step::Ends(Item::B),
            Step::Next(Item::Nil, Item::A),
        ],
    ),
    (
        "a dead first pair",
        &[
            Step::Set(Item::A, Item::Yes),
            Step::Set(Item::B, Item::Yes),
            Step::Set(Item::A, Item::Nil),
            Step::Next(Item::Nil, Item::B),
            Step::Next(Item::A, Item::B),
        ],
    ),
    (
        "a dead pair between",
        &[
            Step::Set(Item::A, Item::Yes),
            Step::Set(Item::B, Item::Yes),
            Step::Set(Item::C, Item::Yes),
            Step::Set(Item::B, Item::Nil),
            Step::Next(Item::A, Item::C),
            Step::Next(Item::B, Item::C),
        ],
    ),
    (
        "two dead pairs between",
        &[
            Step::Set(Item::A, Item::Yes),
            Step::Set(Item::B, Item::Yes),
            Step::Set(Item::C, Item::Yes),
            Step::Set(Item::D, Item::Yes),
            Step::Set(Item::B, Item::Nil),
            Step::Set(Item::C, Item::Nil),
            Step::Next(Item::A, Item::D),
            Step::Next(Item::C, Item::D),
        ],
    ),
    (
        "a cleared pair is cleared twice",
        &[
            Step::Set(Item::A, Item::Yes),
            Step::Set(Item::B, Item::Yes),
            Step::Set(Item::A, Item::Nil),
            Step::Set(Item::A, Item::Nil),
            Step::Set(Item::C, Item::Yes),
            Step::Next(Item::A, Item::B),
        ],
    ),
    (
        "clearing all while walking",
        &[
            Step::Set(Item::A, Item::Yes),
            Step::Set(Item::B, Item::Yes),
            Step::Next(Item::Nil, Item::A),
            Step::Set(Item::A, Item::Nil),
            Step::Next(Item::A, Item::B),
            Step::Set(Item::B, Item::Nil),
            Step::Ends(Item::B),
        ],
    ),
    (
        "false is a value",
        &[
            Step::Set(Item::A, Item::No),
            Step::Get(Item::A, Item::No),
            Step::Next(Item::Nil, Item::A),
        ],
    ),
    (
        "a value is replaced in its place",
        &[
            Step::Set(Item::A, Item::Yes),
            Step::Set(Item::B, Item::Yes),
            Step::Set(Item::A, Item::No),
            Step::Next(Item::Nil, Item::A),
            Step::Next(Item::A, Item::B),
            Step::Get(Item::A, Item::No),
        ],
    ),
    (
        "an absent key is no place",
        &[
            Step::Set(Item::A, Item::Yes),
            Step::Dead(Item::B),
            Step::Dead(Item::Yes),
            Step::Dead(Item::Int(0)),
        ],
    ),
];

pub const KEY_ROWS: &[Row] = &[
    (
        "booleans",
        &[
            Step::Set(Item::Yes, Item::Int(1)),
            Step::Set(Item::No, Item::Int(2)),
            Step::Get(Item::Yes, Item::Int(1)),
            Step::Get(Item::No, Item::Int(2)),
            Step::Next(Item::Yes, Item::No),
        ],
    ),
    (
        "the least and the greatest integer",
        &[
            Step::Set(Item::Int(i64::MAX), Item::Yes),
            Step::Set(Item::Int(i64::MIN), Item::No),
            Step::Next(Item::Nil, Item::Int(i64::MAX)),
            Step::Next(Item::Int(i64::MAX), Item::Int(i64::MIN)),
            Step::Ends(Item::Int(i64::MIN)),
            Step::Border(0),
        ],
    ),
    (
        "the greatest integer is no part of a border",
        &[
            Step::Set(Item::Int(i64::MAX), Item::Yes),
            Step::Set(Item::Int(1), Item::Yes),
            Step::Border(1),
            Step::Set(Item::Int(i64::MAX), Item::Nil),
            Step::Border(1),
        ],
    ),
    (
        "zero and negative integers",
        &[
            Step::Set(Item::Int(0), Item::Yes),
            Step::Set(Item::Int(-1), Item::No),
            Step::Get(Item::Int(0), Item::Yes),
            Step::Get(Item::Int(-1), Item::No),
            Step::Border(0),
        ],
    ),
    (
        "a library function and an integer",
        &[
            Step::Set(Item::Lib(1), Item::Yes),
            Step::Get(Item::Int(1), Item::Nil),
            Step::Get(Item::Lib(1), Item::Yes),
            Step::Border(0),
        ],
    ),
    (
        "library functions",
        &[
            Step::Set(Item::Lib(1), Item::Yes),
            Step::Set(Item::Lib(2), Item::No),
            Step::Get(Item::Lib(2), Item::No),
            Step::Next(Item::Lib(1), Item::Lib(2)),
        ],
    ),
    (
        "linda and lane handles",
        &[
            Step::Set(Item::Linda(7), Item::Yes),
            Step::Set(Item::Lane(7), Item::No),
            Step::Get(Item::Linda(7), Item::Yes),
            Step::Get(Item::Lane(7), Item::No),
        ],
    ),
    (
        "light values",
        &[
            Step::Set(Item::Light(0), Item::Yes),
            Step::Get(Item::Light(1), Item::Nil),
            Step::Get(Item::Light(0), Item::Yes),
        ],
    ),
    (
        "a dead key of each kind",
        &[
            Step::Set(Item::Yes, Item::Yes),
            Step::Set(Item::A, Item::Yes),
            Step::Set(Item::Lib(3), Item::Yes),
            Step::Set(Item::Yes, Item::Nil),
            Step::Set(Item::A, Item::Nil),
            Step::Next(Item::Yes, Item::Lib(3)),
            Step::Next(Item::A, Item::Lib(3)),
        ],
    ),
    (
        "a text is one key",
        &[
            Step::Set(Item::A, Item::Yes),
            Step::Set(Item::AAgain, Item::No),
            Step::Get(Item::A, Item::No),
            Step::Ends(Item::A),
        ],
    ),
    (
        "texts are apart",
        &[
            Step::Set(Item::A, Item::Yes),
            Step::Set(Item::B, Item::No),
            Step::Get(Item::A, Item::Yes),
            Step::Get(Item::B, Item::No),
            Step::Get(Item::C, Item::Nil),
        ],
    ),
    (
        "the globals table as a key",
        &[
            Step::Set(Item::Globals, Item::Yes),
            Step::Get(Item::Globals, Item::Yes),
            Step::Ends(Item::Globals),
        ],
    ),
    (
        "a table and a text of one number",
        &[
            Step::Set(Item::Globals, Item::Yes),
            Step::Set(Item::A, Item::No),
            Step::Get(Item::Globals, Item::Yes),
            Step::Get(Item::A, Item::No),
        ],
    ),
    (
        "values of each kind",
        &[
            Step::Set(Item::Int(1), Item::A),
            Step::Set(Item::Int(2), Item::Globals),
            Step::Set(Item::Int(3), Item::Lane(1)),
            Step::Get(Item::Int(1), Item::A),
            Step::Get(Item::Int(2), Item::Globals),
            Step::Get(Item::Int(3), Item::Lane(1)),
            Step::Border(3),
        ],
    ),
];

pub const BORDER_ROWS: &[Row] = &[
    (
        "one",
        &[Step::Set(Item::Int(1), Item::Yes), Step::Border(1)],
    ),
    (
        "a hole at once",
        &[Step::Set(Item::Int(2), Item::Yes), Step::Border(0)],
    ),
    (
        "a hole that is filled",
        &[
            Step::Set(Item::Int(2), Item::Yes),
            Step::Set(Item::Int(1), Item::Yes),
            Step::Border(2),
        ],
    ),
    (
        "two holes",
        &[
            Step::Set(Item::Int(1), Item::Yes),
            Step::Set(Item::Int(3), Item::Yes),
            Step::Set(Item::Int(5), Item::Yes),
            Step::Border(1),
            Step::Set(Item::Int(2), Item::Yes),
            Step::Border(3),
            Step::Set(Item::Int(4), Item::Yes),
            Step::Border(5),
        ],
    ),
    (
        "the last is cleared",
        &[
            Step::Set(Item::Int(1), Item::Yes),
            Step::Set(Item::Int(2), Item::Yes),
            Step::Set(Item::Int(2), Item::Nil),
            Step::Border(1),
        ],
    ),
    (
        "the first is cleared",
        &[
            Step::Set(Item::Int(1), Item::Yes),
            Step::Set(Item::Int(2), Item::Yes),
            Step::Set(Item::Int(1), Item::Nil),
            Step::Border(0),
            Step::Set(Item::Int(1), Item::Yes),
            Step::Border(2),
        ],
    ),
    (
        "one between is cleared",
        &[
            Step::Set(Item::Int(1), Item::Yes),
            Step::Set(Item::Int(2), Item::Yes),
            Step::Set(Item::Int(3), Item::Yes),
            Step::Set(Item::Int(2), Item::Nil),
            Step::Border(1),
            Step::Set(Item::Int(2), Item::No),
            Step::Border(3),
        ],
    ),
    (
        "one past the border is cleared",
        &[
            Step::Set(Item::Int(1), Item::Yes),
            Step::Set(Item::Int(3), Item::Yes),
            Step::Set(Item::Int(3), Item::Nil),
            Step::Border(1),
            Step::Set(Item::Int(2), Item::Yes),
            Step::Border(2),
        ],
    ),
    (
        "other keys don't count",
        &[
            Step::Set(Item::A, Item::Yes),
            Step::Set(Item::Int(1), Item::Yes),
            Step::Set(Item::B, Item::Yes),
            Step::Set(Item::Int(2), Item::Yes),
            Step::Border(2),
        ],
    ),
    (
        "after a text key the order is the order of setting",
        &[
            Step::Set(Item::Int(1), Item::Yes),
            Step::Set(Item::A, Item::Yes),
            Step::Set(Item::Int(2), Item::Yes),
            Step::Next(Item::Int(1), Item::A),
            Step::Next(Item::A, Item::Int(2)),
            Step::Ends(Item::Int(2)),
            Step::Border(2),
        ],
    ),
    (
        "a key set before the run",
        &[
            Step::Set(Item::Int(3), Item::Yes),
            Step::Set(Item::Int(1), Item::Yes),
            Step::Set(Item::Int(2), Item::Yes),
            Step::Next(Item::Nil, Item::Int(3)),
            Step::Next(Item::Int(3), Item::Int(1)),
            Step::Next(Item::Int(1), Item::Int(2)),
            Step::Border(3),
        ],
    ),
    (
        "false counts",
        &[
            Step::Set(Item::Int(1), Item::No),
            Step::Set(Item::Int(2), Item::No),
            Step::Border(2),
        ],
    ),
    (
        "the border after a purge",
        &[
            Step::Set(Item::Int(1), Item::Yes),
            Step::Set(Item::Int(2), Item::Yes),
            Step::Set(Item::Int(3), Item::Yes),
            Step::Set(Item::Int(2), Item::Nil),
            Step::Set(Item::Int(3), Item::Nil),
            Step::Set(Item::A, Item::Yes),
            Step::Border(1),
            Step::Dead(Item::Int(3)),
            Step::Next(Item::Int(1), Item::A),
            Step::Set(Item::Int(2), Item::Yes),
            Step::Next(Item::A, Item::Int(2)),
            Step::Border(2),
        ],
    ),
    (
        "a purge in the middle of a run",
        &[
            Step::Set(Item::Int(1), Item::Yes),
            Step::Set(Item::Int(2), Item::Yes),
            Step::Set(Item::Int(3), Item::Yes),
            Step::Set(Item::Int(4), Item::Yes),
            Step::Set(Item::Int(5), Item::Yes),
            Step::Set(Item::Int(1), Item::Nil),
            Step::Set(Item::Int(3), Item::Nil),
            Step::Set(Item::Int(4), Item::Nil),
            Step::Set(Item::Int(6), Item::Yes),
            Step::Border(0),
            Step::Next(Item::Nil, Item::Int(2)),
            Step::Next(Item::Int(2), Item::Int(5)),
            Step::Next(Item::Int(5), Item::Int(6)),
            Step::Dead(Item::Int(3)),
            Step::Set(Item::Int(1), Item::Yes),
            Step::Border(2),
        ],
    ),
    (
        "all cleared, then the same again",
        &[
            Step::Set(Item::Int(1), Item::Yes),
            Step::Set(Item::Int(2), Item::Yes),
            Step::Set(Item::Int(2), Item::Nil),
            Step::Set(Item::Int(1), Item::Nil),
            Step::Border(0),
            Step::Set(Item::Int(1), Item::Yes),
            Step::Set(Item::Int(2), Item::Yes),
            Step::Next(Item::Nil, Item::Int(1)),
            Step::Next(Item::Int(1), Item::Int(2)),
            Step::Border(2),
        ],
    ),
    (
        "all cleared, then another key",
        &[
            Step::Set(Item::Int(1), Item::Yes),
            Step::Set(Item::Int(2), Item::Yes),
            Step::Set(Item::Int(2), Item::Nil),
            Step::Set(Item::Int(1), Item::Nil),
            Step::Set(Item::A, Item::Yes),
            Step::Next(Item::Nil, Item::A),
            Step::Dead(Item::Int(1)),
            Step::Border(0),
        ],
    ),
    (
        "a queue",
        &[
            Step::Set(Item::Int(1), Item::Yes),
            Step::Set(Item::Int(2), Item::Yes),
            Step::Set(Item::Int(1), Item::Nil),
            Step::Set(Item::Int(3), Item::Yes),
            Step::Set(Item::Int(2), Item::Nil),
            Step::Set(Item::Int(4), Item::Yes),
            Step::Next(Item::Nil, Item::Int(3)),
            Step::Next(Item::Int(3), Item::Int(4)),
            Step::Dead(Item::Int(1)),
            Step::Border(0),
        ],
    ),
    (
        "reading past the run",
        &[
            Step::Set(Item::Int(1), Item::Yes),
            Step::Get(Item::Int(2), Item::Nil),
            Step::Get(Item::Int(0), Item::Nil),
            Step::Get(Item::Int(i64::MIN), Item::Nil),
            Step::Get(Item::Int(i64::MAX), Item::Nil),
        ],
    ),
    (
        "negative keys are cleared",
        &[
            Step::Set(Item::Int(-5), Item::Yes),
            Step::Set(Item::Int(-5), Item::Nil),
            Step::Set(Item::Int(1), Item::Yes),
            Step::Border(1),
            Step::Dead(Item::Int(-5)),
        ],
    ),
    (
        "a walk over a run with a dead last value",
        &[
            Step::Set(Item::Int(1), Item::Yes),
            Step::Set(Item::Int(2), Item::Yes),
            Step::Set(Item::Int(2), Item::Nil),
            Step::Ends(Item::Int(1)),
            Step::Ends(Item::Int(2)),
        ],
    ),
    (
        "a walk from the run into the rest",
        &[
            Step::Set(Item::Int(1), Item::Yes),
            Step::Set(Item::A, Item::No),
            Step::Next(Item::Int(1), Item::A),
            Step::Set(Item::Int(1), Item::Nil),
            Step::Next(Item::Int(1), Item::A),
            Step::Next(Item::Nil, Item::A),
        ],
    ),
    (
        "the pairs that were there first stay first",
        &[
            Step::Set(Item::B, Item::Yes),
            Step::Set(Item::Int(1), Item::Yes),
            Step::Set(Item::A, Item::Yes),
            Step::Next(Item::Nil, Item::B),
            Step::Next(Item::B, Item::Int(1)),
            Step::Next(Item::Int(1), Item::A),
            Step::Ends(Item::A),
        ],
    ),
    (
        "reviving the first of a run purges nothing",
        &[
            Step::Set(Item::Int(1), Item::Yes),
            Step::Set(Item::Int(2), Item::Yes),
            Step::Set(Item::Int(1), Item::Nil),
            Step::Set(Item::Int(2), Item::Nil),
            Step::Set(Item::Int(1), Item::Yes),
            Step::Ends(Item::Int(1)),
            Step::Ends(Item::Int(2)),
            Step::Border(1),
        ],
    ),
    (
        "a revived pair makes the purge needless",
        &[
            Step::Set(Item::A, Item::Yes),
            Step::Set(Item::B, Item::Yes),
            Step::Set(Item::A, Item::Nil),
            Step::Set(Item::B, Item::Nil),
            Step::Set(Item::A, Item::Yes),
            Step::Set(Item::C, Item::Yes),
            Step::Next(Item::A, Item::C),
            Step::Next(Item::B, Item::C),
        ],
    ),
    (
        "as many dead as live after a revival",
        &[
            Step::Set(Item::A, Item::Yes),
            Step::Set(Item::B, Item::Yes),
            Step::Set(Item::C, Item::Yes),
            Step::Set(Item::A, Item::Nil),
            Step::Set(Item::B, Item::Nil),
            Step::Set(Item::B, Item::Yes),
            Step::Set(Item::D, Item::Yes),
            Step::Next(Item::A, Item::B),
            Step::Next(Item::C, Item::D),
        ],
    ),
    (
        "three dead and two live",
        &[
            Step::Set(Item::A, Item::Yes),
            Step::Set(Item::B, Item::Yes),
            Step::Set(Item::C, Item::Yes),
            Step::Set(Item::D, Item::Yes),
            Step::Set(Item::Int(9), Item::Yes),
            Step::Set(Item::A, Item::Nil),
            Step::Set(Item::B, Item::Nil),
            Step::Set(Item::C, Item::Nil),
            Step::Set(Item::Int(8), Item::Yes),
            Step::Dead(Item::A),
            Step::Dead(Item::B),
            Step::Dead(Item::C),
            Step::Next(Item::Nil, Item::D),
            Step::Next(Item::D, Item::Int(9)),
            Step::Next(Item::Int(9), Item::Int(8)),
        ],
    ),
];
