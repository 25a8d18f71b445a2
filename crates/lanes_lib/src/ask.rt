//! What a lane asks of its host, and what the host answers.

use lanes_arena::Bytes;
use linda_core::{BankCall, LindaReply};
use object_store::LuaFault;

/// What a lane asks of its host.
#[derive(Drop)]
pub enum Ask {
    /// These bytes are written to the output, all or none of them in one write.
    Print(Bytes),
    /// A new linda.
    NewLinda,
    /// A call on a linda, which gives up after so many seconds.
    Linda {
        call: BankCall,
        seconds: Option<u64>,
    },
}

/// What a host answers.
#[derive(Drop)]
pub enum Answer {
    /// To a print.
    Printed,
    /// To a print: the output was not written whole.
    WriteFault,
    /// To a new linda: its number.
    Linda(u64),
    /// To a new linda: there may be no more of them.
    TooManyLindas,
    /// To a call on a linda.
    Reply(LindaReply),
    /// To a call on a linda: it isn't ready, and waiting isn't built.
    NotBuilt,
    /// To any ask: want of memory.
    Memory,
}

/// A function of the Lanes face.
#[derive(Clone, Copy, Debug, PartialEq, Eq)]
pub enum LanesFn {
    Linda,
    Send,
    Receive,
}

/// Why a call of the Lanes face has no answer.
#[derive(Drop)]
pub enum AskFault {
    /// A fault of the language.
    Lua(LuaFault),
    /// There may be no more lindas.
    TooManyLindas,
    /// A form of call that isn't built.
    NotBuilt,
}
