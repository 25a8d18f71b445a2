//! The rule of the board, and what each step on a word tells.
use crate::view::View;
use atomic_table::{Join, Play, Seat, Shared, Split, Table, TableRule};
use std::alloc::Global;

pub struct Law;

impl TableRule<(), View, ()> for Law {
    ghost use Rattle.status_board.specs.Rule.{Kept};
    ghost use Rattle.status_board.specs.Views.{founder};

    ghost holds = { λ _. Kept };

    ghost first = { λ _. founder };
}

pub type Token = Seat<(), View>;

pub type Words = Table<(), View, (), Law, Global>;

pub type Face = Shared<(), View, (), Law>;

pub struct Draw;

impl Play<(), View> for Draw {
    ghost use Rattle.status_board.specs.Steps.{Draws};

    ghost then = { Draws };
}

pub struct Set;

impl Play<(), View> for Set {
    ghost use Rattle.status_board.specs.Steps.{Sets};

    ghost then = { Sets };
}

pub struct Look;

impl Play<(), View> for Look {
    ghost use Rattle.status_board.specs.Steps.{Looks};

    ghost then = { Looks };
}

pub struct Ask;

impl Play<(), View> for Ask {
    ghost use Rattle.status_board.specs.Steps.{Asks};

    ghost then = { Asks };
}

pub struct Hear;

impl Play<(), View> for Hear {
    ghost use Rattle.status_board.specs.Steps.{Hears};

    ghost then = { Hears };
}

pub struct Choose;

impl Play<(), View> for Choose {
    ghost use Rattle.status_board.specs.Steps.{Chooses};

    ghost then = { Chooses };
}

pub struct Compare;

impl Play<(), View> for Compare {
    ghost use Rattle.status_board.specs.Steps.{Compares};

    ghost then = { Compares };
}

/// The first of the numbers that a seat drew gets a seat of its own.
pub struct Cut;

impl Split<View> for Cut {
    ghost use Rattle.status_board.specs.Steps.{left_of, right_of};

    ghost left = { left_of };

    ghost right = { right_of };
}

pub struct Meet;

impl Join<View> for Meet {
    ghost use Rattle.status_board.specs.Views.{nobody};
    ghost use Rattle.status_board.specs.Changes.{met};

    ghost both = { met };

    ghost spent = { nobody };
}
