//! The library functions by number.
ghost use Rattle.std.specs.Prelude.{◌≡◌};
ghost use Rattle.lua_meaning.specs.Library as spec;

use base_lib::BaseFn;
use lanes_lib::LanesFn;
use lua_meaning::{Builtin, Library};
use object_store::LibId;

/// The function of the Lanes face of this number.
fn lanes_function(number: u64) -> Option<Library>
    ensures { result ≡ spec.lanes_function number }
{
    if number == 49 {
        return Some(Library::Lanes(LanesFn::Linda));
    }
    if number == 53 {
        return Some(Library::Lanes(LanesFn::Send));
    }
    if number == 54 {
        return Some(Library::Lanes(LanesFn::Receive));
    }
    None
}

/// The library function of this number, where there is one.
pub fn function_of(id: LibId) -> Option<Library>
    ensures { result ≡ spec.function_of id.number }
{
    match id.number {
        0 => Some(Library::Builtin(Builtin::Assert)),
        1 => Some(Library::Builtin(Builtin::Error)),
        2 => Some(Library::Plain(BaseFn::GetMetatable)),
        3 => Some(Library::Plain(BaseFn::Ipairs)),
        4 => Some(Library::Builtin(Builtin::IpairsStep)),
        5 => Some(Library::Plain(BaseFn::Next)),
        6 => Some(Library::Builtin(Builtin::Pairs)),
        7 => Some(Library::Builtin(Builtin::Pcall)),
        8 => Some(Library::Builtin(Builtin::Print)),
        9 => Some(Library::Plain(BaseFn::RawEqual)),
        10 => Some(Library::Plain(BaseFn::RawGet)),
        11 => Some(Library::Plain(BaseFn::RawLen)),
        12 => Some(Library::Plain(BaseFn::RawSet)),
        13 => Some(Library::Builtin(Builtin::Require)),
        14 => Some(Library::Plain(BaseFn::Select)),
        15 => Some(Library::Plain(BaseFn::SetMetatable)),
        16 => Some(Library::Plain(BaseFn::ToNumber)),
        17 => Some(Library::Builtin(Builtin::ToString)),
        18 => Some(Library::Plain(BaseFn::Type)),
        19 => Some(Library::Builtin(Builtin::Xpcall)),
        20 => Some(Library::Plain(BaseFn::Abs)),
        21 => Some(Library::Plain(BaseFn::Floor)),
        22 => Some(Library::Plain(BaseFn::Max)),
        23 => Some(Library::Plain(BaseFn::Min)),
        24 => Some(Library::Plain(BaseFn::ToInteger)),
        25 => Some(Library::Plain(BaseFn::MathType)),
        26 => Some(Library::Plain(BaseFn::Ult)),
        other => lanes_function(other),
    }
}
