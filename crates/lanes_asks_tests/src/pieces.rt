//! The values of replies.
use lanes_arena::{Bytes, Memory, Row};
use lanes_asks::{piece_at, piece_count};
use linda_core::{Item, Key, LindaReply};
use parcel::Leaf;
use std::alloc::Global;
use std::test::Fail;

/// The pieces of a reply, one after the other.
fn shown(alloc: Global, reply: &LindaReply) -> Result<String, Memory> {
    let mut text = String::new(alloc);
    let Some(count) = piece_count(reply) else {
        text.push_str("none")?;
        return Ok(text);
    };
    for at in 0..count {
        let piece = piece_at(reply, at);
        let piece = format!(in alloc; "{piece:?};")?;
        text.push_str(piece.as_str())?;
    }
    Ok(text)
}

/// What a receive of 5 and "xy" under this key replies.
fn got(alloc: Global, key: Key) -> Result<LindaReply, Memory> {
    let mut values = Row::new(alloc);
    values.push(Item::of_leaf(alloc, Leaf::Int(5))?)?;
    let text = Leaf::Text(Bytes::of(alloc, b"xy")?);
    values.push(Item::of_leaf(alloc, text)?)?;
    Ok(LindaReply::Got { key, values })
}

#[test]
fn replies_give_their_values(rt: HostRuntime) -> Result<(), Fail> {
    let alloc = rt.alloc();
    let key = Key::Text(Bytes::of(alloc, b"k")?);
    for (reply, wanted) in [
        (LindaReply::Sent, "Plain(True);"),
        (LindaReply::Full, "none"),
        (LindaReply::Short, "none"),
        (
            got(alloc, Key::Bool(false))?,
            "Plain(False);Plain(Int(5));Text([120, 121]);",
        ),
        (
            got(alloc, key)?,
            "Text([107]);Plain(Int(5));Text([120, 121]);",
        ),
    ] {
        let text = shown(alloc, &reply)?;
        assert_eq!(rt; text.as_str(), wanted);
    }
    Ok(())
}
