//! The steps on single words.
ghost use Rattle.std.specs.Prelude.{◌≡◌, ℕ, ◌+◌, ◌*◌, ◌<◌, ◌≤◌, [], true, false};
ghost use Rattle.status_board.specs.declared.status.Status.TheVariants.{Pending};
ghost use Rattle.status_board.specs.StatusLife.{rank, is_end, may_follow};
ghost use Rattle.status_board.specs.Words.{status_of, bits_of, soft_in, hard_in};
ghost use Rattle.status_board.specs.Views.{has_lane, drawn_of, own_lane, own_status, own_over, newcomer, Drew, IsNewNumber, HasAllNumbers};
ghost use Rattle.status_board.specs.Changes.{with_draw, with_status, with_look, with_ask, with_bits, with_seat, met};
ghost use Rattle.status_board.specs.Agreement.{Agrees};
ghost use Rattle.status_board.specs.Steps.{IsOnce};
ghost use Rattle.status_board.specs.Tokens.{IsTokenOf, IsSameToken};

use crate::law::{Ask, Choose, Compare, Cut, Draw, Face, Hear, Look, Meet, Set, Token};
use crate::status::{CancelKind, Status};

/// What one look adds to a word.
const LOOK: u64 = 256;

/// The next number.
pub(crate) fn draw(face: &Face, token: &mut Token) -> u64
    requires table { IsTokenOf face.now.table_id token.old }
    requires own { has_lane token.old.me.0 token.old.me.0.own ≡ true }
    requires none_over { own_over token.old.me.0 ≡ 0 }
    ensures same { IsSameToken token.old token.new }
    ensures drawn { token.new.me.0 ≡ with_draw token.old.me.0 result }
    ensures new { IsNewNumber token.old.me.0 result }
    ensures whole { HasAllNumbers token.new.me.0 }
{
    face.fetch_add::<Draw>(token, 0, 1)
}

/// The seat's own lane goes from one status to another.
pub(crate) fn set(face: &Face, token: &mut Token, lane: usize, from: Status, to: Status)
    requires table { IsTokenOf face.now.table_id token.old }
    requires own { (lane ≡ token.old.me.0.own) × (lane < 1024) }
    requires has { has_lane token.old.me.0 token.old.me.0.own ≡ true }
    requires from { from ≡ own_status token.old.me.0 }
    requires may { may_follow from to ≡ true }
    ensures same { IsSameToken token.old token.new }
    ensures set { (found : ℕ) × (token.new.me.0 ≡ with_status token.old.me.0 to found) }
{
    face.fetch_xor::<Set>(token, 1 + 2 * lane, from.code() ^ to.code());
}

/// A look at the status of a lane that the seat drew.
pub(crate) fn look(face: &Face, token: &mut Token, lane: usize) -> u64
    requires table { IsTokenOf face.now.table_id token.old }
    requires lane { Drew token.old.me.0 lane }
    ensures same { IsSameToken token.old token.new }
    ensures looked { token.new.me.0 ≡ with_look token.old.me.0 lane (status_of result) }
    ensures ranked { rank (drawn_of token.old.me.0 lane).read ≤ rank (status_of result) }
    ensures ended { is_end (drawn_of token.old.me.0 lane).read ≡ true
        → (drawn_of token.old.me.0 lane).read ≡ status_of result }
    ensures code { result ≤ 5 }
{
    face.fetch_add::<Look>(token, 1 + 2 * lane, LOOK) % LOOK
}

/// A lane that the seat drew is asked to end.
pub(crate) fn ask(face: &Face, token: &mut Token, lane: usize, kind: CancelKind)
    requires table { IsTokenOf face.now.table_id token.old }
    requires lane { Drew token.old.me.0 lane }
    ensures same { IsSameToken token.old token.new }
    ensures asked { (found : ℕ) × (token.new.me.0 ≡ with_ask token.old.me.0 lane kind found) }
{
    face.fetch_or::<Ask>(token, 2 + 2 * lane, kind.bit());
}

/// A look at the cancel word of the seat's own lane: its bits.
pub(crate) fn hear(face: &Face, token: &mut Token, lane: usize) -> u64
    requires table { IsTokenOf face.now.table_id token.old }
    requires own { (lane ≡ token.old.me.0.own) × (lane < 1024) }
    requires has { has_lane token.old.me.0 token.old.me.0.own ≡ true }
    ensures same { IsSameToken token.old token.new }
    ensures heard { token.new.me.0 ≡ with_bits token.old.me.0 (soft_in result) (hard_in result) }
    ensures soft { (own_lane token.old.me.0).soft.read ≡ true → soft_in result ≡ true }
    ensures hard { (own_lane token.old.me.0).hard.read ≡ true → hard_in result ≡ true }
    ensures bits { result ≤ 3 }
{
    face.fetch_add::<Hear>(token, 2 + 2 * lane, LOOK) % LOOK
}

/// The seat of a lane that the seat drew.
pub(crate) fn cut(face: &Face, token: &mut Token, lane: usize) -> Token
    requires table { IsTokenOf face.now.table_id token.old }
    requires lane { Drew token.old.me.0 lane × ((drawn_of token.old.me.0 lane).seated ≡ false) }
    ensures same { IsSameToken token.old token.new }
    ensures made { token.new.me.0 ≡ with_seat token.old.me.0 lane }
    ensures alone { (0 < lane) × (has_lane token.old.me.0 lane ≡ false) }
    ensures new { (result.table_id ≡ token.old.table_id) × (result.me ≡ (newcomer lane, [])) }
{
    face.load::<Choose>(token, 1 + 2 * lane);
    face.split_seat::<Cut>(token)
}

/// Another seat is taken in.
pub(crate) fn join(face: &Face, token: &mut Token, other: Token)
    requires table { IsTokenOf face.now.table_id token.old × IsTokenOf face.now.table_id other }
    requires idle { other.me.1 ≡ [] }
    ensures same { IsSameToken token.old token.new }
    ensures met { token.new.me.0 ≡ met token.old.me.0 other.me.0 }
    ensures once { IsOnce token.new.me.0 }
    ensures agrees { Agrees token.new.me.0 }
    ensures whole { HasAllNumbers token.new.me.0 }
{
    face.join_seat::<Meet>(token, other);
    face.load::<Compare>(token, 0);
}
