//! The text of a value.
ghost use Rattle.std.specs.Prelude.{◌≡◌, ◌++◌, OnOk, OnErr};
ghost use Rattle.std.specs.Fmt.{decimal, signed_decimal};
ghost use Rattle.base_lib.specs.Shown.{library_name, light_name, shown};

use itoa::Buffer;
use lanes_arena::Memory;
use lua_ops::text_at;
use object_store::{LibId, LightId, State, Value};

/// The name of a library function, as a fault and `tostring` give it; no text for a number that no
/// function has.
pub fn library_name(id: LibId) -> &'static str
    ensures { result.now ≡ library_name id.number }
{
    match id.number {
        0 => "assert",
        1 => "error",
        2 => "getmetatable",
        3 => "ipairs",
        4 => "ipairs_step",
        5 => "next",
        6 => "pairs",
        7 => "pcall",
        8 => "print",
        9 => "rawequal",
        10 => "rawget",
        11 => "rawlen",
        12 => "rawset",
        13 => "require",
        14 => "select",
        15 => "setmetatable",
        16 => "tonumber",
        17 => "tostring",
        18 => "type",
        19 => "xpcall",
        20 => "abs",
        21 => "floor",
        22 => "max",
        23 => "min",
        24 => "tointeger",
        25 => "type",
        26 => "ult",
        27 => "byte",
        28 => "char",
        29 => "find",
        30 => "format",
        31 => "gmatch",
        32 => "gsub",
        33 => "len",
        34 => "lower",
        35 => "reverse",
        36 => "upper",
        37 => "match",
        38 => "rep",
        39 => "sub",
        40 => "concat",
        41 => "insert",
        42 => "move",
        43 => "pack",
        44 => "remove",
        45 => "sort",
        46 => "unpack",
        47 => "configure",
        48 => "gen",
        49 => "linda",
        50 => "now_secs",
        51 => "sleep",
        52 => "cancel_test",
        53 => "send",
        54 => "receive",
        55 => "limit",
        56 => "set",
        57 => "get",
        58 => "count",
        59 => "join",
        60 => "cancel",
        _ => "",
    }
}

/// The name of a light value.
fn light_name(id: LightId) -> &'static str
    ensures { result.now ≡ light_name id.number }
{
    match id.number {
        0 => "cancel_error",
        1 => "batched",
        _ => "",
    }
}

/// Adds two texts to the end of the bytes. Where memory is wanted the bytes stay as they were.
fn push_both(out: &mut Vec<u8>, first: &[u8], second: &[u8]) -> Result<(), Memory>
    ensures ok { OnOk result (out.new.items ≡ out.old.items ++ first.now ++ second.now) }
    ensures err { OnErr result (out.new.items ≡ out.old.items) }
{
    let len = out.len();
    out.extend_from_slice(first)?;
    if out.extend_from_slice(second).is_err() {
        out.truncate(len);
        return Err(Memory);
    }
    Ok(())
}

/// Adds the kind of an object, which ends with a colon and a space, and its number.
fn push_numbered(out: &mut Vec<u8>, kind: &[u8], number: u64) -> Result<(), Memory>
    ensures ok { OnOk result (out.new.items ≡ out.old.items ++ kind.now ++ decimal number) }
    ensures err { OnErr result (out.new.items ≡ out.old.items) }
{
    let mut buffer = Buffer::new();
    push_both(out, kind, buffer.format(number).as_bytes())
}

/// Adds an integer's decimal text.
fn push_integer(out: &mut Vec<u8>, n: i64) -> Result<(), Memory>
    ensures ok { OnOk result (out.new.items ≡ out.old.items ++ signed_decimal n) }
    ensures err { OnErr result (out.new.items ≡ out.old.items) }
{
    let mut buffer = Buffer::new();
    out.extend_from_slice(buffer.format(n).as_bytes())
}

/// Adds the text of a value to the end of the bytes, as `tostring` gives it where there is no
/// handler `__tostring` (Lua 5.4 manual, section 6.1). The only refusal is want of memory, and the
/// bytes stay then as they were.
pub fn push_shown(state: &State, value: Value, out: &mut Vec<u8>) -> Result<(), Memory>
    ensures ok { OnOk result (out.new.items ≡ out.old.items ++ shown state.now.texts value) }
    ensures err { OnErr result (out.new.items ≡ out.old.items) }
{
    match value {
        Value::Nil => out.extend_from_slice(b"nil"),
        Value::False => out.extend_from_slice(b"false"),
        Value::True => out.extend_from_slice(b"true"),
        Value::Int(n) => push_integer(out, n),
        Value::Str(id) => out.extend_from_slice(text_at(state, id)),
        Value::Table(id) => push_numbered(out, b"table: ", id.number()),
        Value::Func(id) => push_numbered(out, b"function: ", id.number()),
        Value::Lib(id) => push_both(out, b"function: ", library_name(id).as_bytes()),
        Value::Linda(number) => push_numbered(out, b"linda: ", number),
        Value::Lane(number) => push_numbered(out, b"lane: ", number),
        Value::Light(id) => push_both(out, b"light: ", light_name(id).as_bytes()),
    }
}
