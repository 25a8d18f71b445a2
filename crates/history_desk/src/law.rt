//! The rule of a desk's table, and its steps.
use crate::known::{Known, Place, View};
use atomic_table::{Join, Play, Seat, Shared, Split, Table, TableRule};
use desk_object::Object;
use std::alloc::Global;
use std::marker::PhantomData;

/// What lies in the slot of a desk for `S`.
pub type Spot<S> = Place<S, <S as Object>::Call, <S as Object>::Reply>;

/// What the rule says of a pass of a desk for `S`.
pub type Sight<S> = View<<S as Object>::CallData, <S as Object>::ReplyData>;

/// What a pass of a desk for `S` steps with.
pub type Chair<S> = Seat<Spot<S>, Sight<S>>;

/// The words and the slot of a desk for `S`.
pub type Board<S> = Table<Spot<S>, Sight<S>, (), Law<S>, Global>;

/// The part of a board that passes share.
pub type Face<S> = Shared<Spot<S>, Sight<S>, (), Law<S>>;

pub struct Law<S> {
    object: PhantomData<S>,
}

impl<S: Object> TableRule<Place<S, S::Call, S::Reply>, View<S::CallData, S::ReplyData>, ()>
    for Law<S> {
    ghost use Rattle.history_desk.specs.Rule.{Kept, founder};

    ghost holds = { λ _. Kept S.means S.content };

    ghost first = { λ _. founder };
}

/// Takes the lock where it is free.
pub struct Take<S> {
    object: PhantomData<S>,
}

impl<S: Object> Play<Place<S, S::Call, S::Reply>, View<S::CallData, S::ReplyData>> for Take<S> {
    ghost use Rattle.history_desk.specs.Steps.{Takes};

    ghost then = { Takes S.means S.content };
}

/// Sees the history without the lock.
pub struct Look<S> {
    object: PhantomData<S>,
}

impl<S: Object> Play<Place<S, S::Call, S::Reply>, View<S::CallData, S::ReplyData>> for Look<S> {
    ghost use Rattle.history_desk.specs.Steps.{Looks};

    ghost then = { Looks S.means S.content };
}

/// Appends the entry that the slot asks for.
pub struct Add<S> {
    object: PhantomData<S>,
}

impl<S: Object> Play<Place<S, S::Call, S::Reply>, View<S::CallData, S::ReplyData>> for Add<S> {
    ghost use Rattle.history_desk.specs.Steps.{Adds};

    ghost then = { Adds S.call_data S.reply_data };
}

/// Gives the lock back.
pub struct Free;

impl<P, C, R> Play<P, View<C, R>> for Free {
    ghost use Rattle.history_desk.specs.Steps.{Frees};

    ghost then = { Frees };
}

/// Reads the history's length under the lock.
pub struct Measure;

impl<P, C, R> Play<P, View<C, R>> for Measure {
    ghost use Rattle.history_desk.specs.Steps.{Measures};

    ghost then = { Measures };
}

/// Reads the next number under the lock.
pub struct Ask;

impl<P, C, R> Play<P, View<C, R>> for Ask {
    ghost use Rattle.history_desk.specs.Steps.{Asks};

    ghost then = { Asks };
}

/// Draws the next number under the lock.
pub struct Draw;

impl<P, C, R> Play<P, View<C, R>> for Draw {
    ghost use Rattle.history_desk.specs.Steps.{Draws};

    ghost then = { Draws };
}

/// Compares what two passes knew that were put together.
pub struct Settle;

impl<P, C, R> Play<P, View<C, R>> for Settle {
    ghost use Rattle.history_desk.specs.Steps.{Settles};

    ghost then = { Settles };
}

/// Cuts the number that was drawn off.
pub struct Cut;

impl<C, R> Split<View<C, R>> for Cut {
    ghost use Rattle.history_desk.specs.Steps.{cut, cut_off};

    ghost left = { cut };

    ghost right = { cut_off };
}

/// Puts two passes together.
pub struct Glue;

impl<C, R> Join<View<C, R>> for Glue {
    ghost use Rattle.history_desk.specs.Steps.{glued, nobody};

    ghost both = { glued };

    ghost spent = { nobody };
}
