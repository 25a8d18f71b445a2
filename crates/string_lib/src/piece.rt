//! Pieces of an answer of several values.
ghost use Rattle.std.specs.Prelude.{◌≡◌, IfOk, OnOk};
ghost use Rattle.string_lib.specs.Several as spec;

use lanes_arena::{Memory, Row};
use object_store::{State, Value};
use std::alloc::Global;

/// A value, or a text that is interned then.
#[derive(Drop)]
pub enum Piece {
    Value(Value),
    Text(Row<u8>),
}

/// The value of a piece.
fn value_of(state: &mut State, piece: &Piece) -> Result<Value, Memory>
    ensures value { IfOk result (λ value. value ≡ spec.value_in state.old.texts piece.now) }
    ensures state { OnOk result (
        state.new ≡ record state.old { texts = spec.texts_with state.old.texts piece.now }) }
{
    match piece {
        Piece::Value(value) => Ok(*value),
        Piece::Text(text) => state.intern(text.as_slice()),
    }
}

/// The values of the pieces, whose texts are interned one after the other. A refusal may leave some
/// of the texts interned.
pub fn interned(alloc: Global, state: &mut State, pieces: &[Piece]) -> Result<Vec<Value>, Memory>
    ensures values { IfOk result (λ values. values.items
        ≡ spec.values_of state.old.texts pieces.now) }
    ensures state { OnOk result (
        state.new ≡ record state.old { texts = spec.texts_after state.old.texts pieces.now }) }
{
    let mut values = Vec::with_capacity(alloc, pieces.len())?;
    for piece in pieces {
        let value = value_of(state, piece)?;
        values.push(value)?;
    }
    Ok(values)
}
