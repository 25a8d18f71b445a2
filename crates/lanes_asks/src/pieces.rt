//! The values that a linda's reply gives.
ghost use Rattle.std.specs.Prelude.{◌≡◌, ◌<◌, length, slice_get, Some, IfSome, IfNone, OnSome};
ghost use Rattle.lanes_lib.specs.Face as face;
ghost use Rattle.lanes_asks.specs.Pieces.{piece_of, pieces_of};

use linda_core::{Item, Key, LindaReply};
use object_store::Value;
use parcel::Leaf;

/// A value that a reply gives, or the text of a string that is interned first.
#[derive(Clone, Copy, Debug)]
pub enum Piece<'a> {
    Plain(Value),
    Text(&'a [u8]),
}

fn key_piece(key: &Key) -> Piece<'_>
    ensures { piece_of result ≡ face.key_piece key.now }
{
    match key {
        Key::Int(n) => Piece::Plain(Value::Int(*n)),
        Key::Text(text) => Piece::Text(text.as_slice()),
        Key::Bool(truth) => Piece::Plain(Value::from_bool(*truth)),
    }
}

fn item_piece(item: &Item) -> Piece<'_>
    ensures { piece_of result ≡ face.item_piece item.now }
{
    match item.only_root() {
        Some(Leaf::Int(n)) => Piece::Plain(Value::Int(*n)),
        Some(Leaf::Text(text)) => Piece::Text(text.as_slice()),
        _ => Piece::Plain(Value::Nil),
    }
}

/// The piece of the item of this place.
fn item_piece_at(items: &[Item], at: usize) -> Piece<'_>
    requires { at < length items.now }
    ensures { slice_get (face.item_pieces items.now) at ≡ Some (piece_of result) }
{
    item_piece(&items[at])
}

/// How many values the reply gives to a `send` or a `receive` that waits without end, or `None`
/// where it is no reply to these.
#[tactic(auto, using(crate::proofs::PieceLemmas::length_item_pieces))]
pub fn piece_count(reply: &LindaReply) -> Option<usize>
    ensures count { IfSome result (λ n. n ≡ length (pieces_of reply.now)) }
    ensures gives { OnSome result
        (face.taken_reply reply.now ≡ face.Gives (pieces_of reply.now)) }
    ensures wrong { IfNone result (face.taken_reply reply.now ≡ face.Wrong) }
{
    match reply {
        LindaReply::Sent => Some(1),
        LindaReply::Got { values, .. } => Some(1 + values.as_slice().len()),
        _ => None,
    }
}

/// The value of this place, counted from 0, that the reply gives.
#[tactic(auto, using(crate::proofs::PieceLemmas::length_item_pieces))]
pub fn piece_at(reply: &LindaReply, at: usize) -> Piece<'_>
    requires { at < length (pieces_of reply.now) }
    ensures { slice_get (pieces_of reply.now) at ≡ Some (piece_of result) }
{
    match reply {
        LindaReply::Got { key, values } => {
            if at == 0 {
                key_piece(key)
            } else {
                item_piece_at(values.as_slice(), at - 1)
            }
        }
        _ => Piece::Plain(Value::True),
    }
}
