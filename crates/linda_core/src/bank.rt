//! A bank of lindas.
ghost use Rattle.std.specs.Prelude.{◌≡◌, [], Ok, IfOk, position, Some, None, nat_eq};
ghost use Rattle.std.specs.Map.{lookup};
ghost use Rattle.desk_object.specs.Endings.{MayEnd};
ghost use Rattle.indexmap.specs.IndexMap.{keys, spare};
ghost use Rattle.linda_core.specs.BankHolding.{bank_content, seen_bank};
ghost use Rattle.linda_core.specs.BankMeaning.{bank_after, linda_at};
ghost use Rattle.linda_core.specs.BankRooms.{IsReserved};
ghost use Rattle.linda_core.specs.Lawful.{fault_of};
ghost use Rattle.linda_core.specs.SequentialLinda.{fits, reply_to};
ghost use Rattle.linda_core.specs.declared.bank.Reserved.TheVariants.{Known, Fresh};

use crate::call::{BankCall, LindaReply};
use crate::content::BankContent;
use crate::linda::Linda;
use crate::room::Room;
use desk_object::{Ending, Object};
use indexmap::IndexMap;
use lanes_arena::Memory;
use std::alloc::Global;
use std::marker::Model;

/// Lindas by number. A number that was never used stands for an empty linda.
#[derive(Drop)]
pub struct Bank {
    alloc: Global,
    lindas: IndexMap<u64, Linda>,
}

impl Model for Bank {
    ghost use Rattle.indexmap.specs.IndexMap.{spare};
    ghost use Rattle.linda_core.specs.BankHolding.{BankHolding};

    ghost Value = { BankHolding };

    ghost view = { λ bank. record { lindas = bank.lindas.entries; spare = spare bank.lindas } };
}

/// The memory that was taken for one call on a bank.
#[derive(Drop)]
pub struct BankRoom {
    reserved: Reserved,
}

/// Where the call will be made.
#[derive(Drop)]
enum Reserved {
    /// In the linda at this place.
    Known { place: usize, room: Room },
    /// In this one, which is new, and for which there is a place.
    Fresh { linda: Linda, room: Room },
}

/// The room for a call on a linda that the bank has.
fn reserve_known(
    lindas: &mut IndexMap<u64, Linda>,
    alloc: Global,
    place: usize,
    call: &BankCall,
) -> Result<Room, Memory>
    requires lawful { fault_of call.now.op ≡ Ok tt }
    requires found { position (nat_eq call.now.linda) (keys lindas.old) ≡ Some place }
    ensures room { IfOk result
        (λ room. IsReserved lindas.new.entries (spare lindas.new) (Known place room) call.now) }
    ensures same { seen_bank lindas.new.entries ≡ seen_bank lindas.old.entries }
{
    lindas
        .get_index_mut(place)
        .unwrap()
        .reserve(alloc, &call.op)
}

/// The room for a call on a linda that is new.
fn reserve_fresh(
    lindas: &mut IndexMap<u64, Linda>,
    alloc: Global,
    call: &BankCall,
) -> Result<(Linda, Room), Memory>
    requires lawful { fault_of call.now.op ≡ Ok tt }
    requires unknown { lookup (nat_eq call.now.linda) lindas.old.entries ≡ None }
    ensures room { IfOk result (λ new. IsReserved lindas.new.entries (spare lindas.new)
        (Fresh new.0 new.1) call.now) }
    ensures same { lindas.new.entries ≡ lindas.old.entries }
{
    lindas.reserve(1)?;
    let mut linda = Linda::new(alloc);
    let room = linda.reserve(alloc, &call.op)?;
    Ok((linda, room))
}

/// Ends a call on a linda that the bank has.
fn apply_known(
    lindas: &mut IndexMap<u64, Linda>,
    place: usize,
    call: &BankCall,
    ending: Ending,
    room: Room,
) -> LindaReply
    requires lawful { fault_of call.now.op ≡ Ok tt }
    requires room { IsReserved lindas.old.entries (spare lindas.old) (Known place room) call.now }
    requires ending { MayEnd ending
        (fits (linda_at (seen_bank lindas.old.entries) call.now.linda) call.now.op) }
    ensures reply { result
        ≡ reply_to (linda_at (seen_bank lindas.old.entries) call.now.linda) call.now.op ending }
    ensures content { seen_bank lindas.new.entries
        ≡ bank_after (seen_bank lindas.old.entries) call.now ending }
{
    lindas
        .get_index_mut(place)
        .unwrap()
        .apply(&call.op, ending, room)
}

/// Ends a call on a linda that is new. The bank has it from then on where the call is served.
fn apply_fresh(
    lindas: &mut IndexMap<u64, Linda>,
    mut linda: Linda,
    call: &BankCall,
    ending: Ending,
    room: Room,
) -> LindaReply
    requires lawful { fault_of call.now.op ≡ Ok tt }
    requires room { IsReserved lindas.old.entries (spare lindas.old) (Fresh linda room) call.now }
    requires ending { MayEnd ending
        (fits (linda_at (seen_bank lindas.old.entries) call.now.linda) call.now.op) }
    ensures reply { result
        ≡ reply_to (linda_at (seen_bank lindas.old.entries) call.now.linda) call.now.op ending }
    ensures content { seen_bank lindas.new.entries
        ≡ bank_after (seen_bank lindas.old.entries) call.now ending }
{
    let reply = linda.apply(&call.op, ending, room);
    match ending {
        Ending::Served => {
            let _ = lindas.insert(call.linda, linda);
        }
        Ending::GaveUp => {}
        Ending::Withdrawn => {}
    }
    reply
}

impl Bank {
    /// A bank of empty lindas, which takes no memory.
    pub fn new(alloc: Global) -> Bank
        ensures { bank_content result ≡ [] }
    {
        Bank {
            alloc,
            lindas: IndexMap::new(alloc),
        }
    }
}

impl Object for Bank {
    type Call = BankCall;

    type Reply = LindaReply;

    type Room = BankRoom;

    type Content = BankContent;

    type CallData = BankCall;

    type ReplyData = LindaReply;

    ghost use Rattle.linda_core.specs.BankHolding.{bank_content};
    ghost use Rattle.linda_core.specs.BankMeaning.{bank_means, determined_steps};
    ghost use Rattle.linda_core.specs.BankRooms.{IsReserved};

    ghost means = { bank_means };

    ghost content = { λ bank. bank_content bank };

    ghost call_data = { λ call. call };

    ghost reply_data = { λ reply. reply };

    ghost is_room_for = { λ bank room call.
        IsReserved bank.lindas bank.spare room.reserved call };

    fn ready(&self, call: &BankCall) -> bool {
        match self.lindas.get(&call.linda) {
            Some(linda) => linda.ready(&call.op),
            None => Linda::new(self.alloc).ready(&call.op),
        }
    }

    fn reserve(&mut self, alloc: Global, call: &BankCall) -> Result<BankRoom, Memory> {
        let reserved = match self.lindas.get_index_of(&call.linda) {
            Some(place) => Reserved::Known {
                place,
                room: reserve_known(&mut self.lindas, alloc, place, call)?,
            },
            None => {
                let (linda, room) = reserve_fresh(&mut self.lindas, alloc, call)?;
                Reserved::Fresh { linda, room }
            }
        };
        Ok(BankRoom { reserved })
    }

    fn apply(&mut self, call: &BankCall, ending: Ending, room: BankRoom) -> LindaReply {
        let BankRoom { reserved } = room;
        match reserved {
            Reserved::Known { place, room } => {
                apply_known(&mut self.lindas, place, call, ending, room)
            }
            Reserved::Fresh { linda, room } => {
                apply_fresh(&mut self.lindas, linda, call, ending, room)
            }
        }
    }

    ghost determined = { determined_steps };
}
