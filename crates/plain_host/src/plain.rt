//! What answers the asks of one lane alone.
ghost use Rattle.std.specs.Prelude.{◌≡◌, [], ℕ, false};
ghost use Rattle.std.specs.declared.option.Option.{Option};
ghost use Rattle.linda_core.specs.Holding.{content};
ghost use Rattle.plain_host.specs.Plain.{Answers, AnswersOne, seen_of};

use crate::writing::write_text;
use lanes_lib::{Answer, Ask};
use linda_core::{BankCall, Ending, Linda, LindaOp, check_op};
use lua_machine::Ready;
use outside::Sink;
use std::alloc::Global;

/// An output, and a bank of lindas.
#[derive(Drop)]
pub struct Plain<O: Sink> {
    pub alloc: Global,
    pub output: O,
    pub failed: bool,
    pub lindas: Vec<Linda>,
}

impl<O: Sink> Plain<O> {
    /// With this output, without a linda.
    pub fn of(alloc: Global, output: O) -> Plain<O>
        ensures output { result.output ≡ output }
        ensures failed { result.failed ≡ false }
        ensures lindas { result.lindas.items ≡ [] }
    {
        Plain {
            alloc,
            output,
            failed: false,
            lindas: Vec::new(alloc),
        }
    }

    fn print(&mut self, text: &[u8]) -> Answer
        ensures { Answers
            (seen_of (O.taken self.old.output) (O.faults self.old.output) self.old.failed
            self.old.lindas.items) (Ask.Print text.now) result
            (seen_of (O.taken self.new.output) (O.faults self.new.output) self.new.failed
            self.new.lindas.items) }
    {
        match write_text(text, &mut self.output) {
            Ok(()) => Answer::Printed,
            Err(_) => {
                self.failed = true;
                Answer::WriteFault
            }
        }
    }

    fn new_linda(&mut self) -> Answer
        ensures { Answers
            (seen_of (O.taken self.old.output) (O.faults self.old.output) self.old.failed
            self.old.lindas.items) Ask.NewLinda result
            (seen_of (O.taken self.new.output) (O.faults self.new.output) self.new.failed
            self.new.lindas.items) }
    {
        let number = self.lindas.len() as u64;
        match self.lindas.push(Linda::new(self.alloc)) {
            Ok(()) => Answer::Linda(number),
            Err(_) => Answer::Memory,
        }
    }

    fn call(&mut self, call: &BankCall) -> Answer
        ensures { (seconds : Option ℕ) → Answers
            (seen_of (O.taken self.old.output) (O.faults self.old.output) self.old.failed
            self.old.lindas.items) (Ask.Linda call.now seconds) result
            (seen_of (O.taken self.new.output) (O.faults self.new.output) self.new.failed
            self.new.lindas.items) }
    {
        let alloc = self.alloc;
        match self.lindas.get_mut(call.linda as usize) {
            Some(linda) => answer_of(alloc, linda, &call.op),
            None => Answer::NotBuilt,
        }
    }
}

/// What a linda answers to an operation.
fn answer_of(alloc: Global, linda: &mut Linda, op: &LindaOp) -> Answer
    ensures { AnswersOne (content linda.old) op.now result (content linda.new) }
{
    if check_op(op).is_err() || !linda.ready(op) {
        return Answer::NotBuilt;
    }
    match linda.reserve(alloc, op) {
        Ok(room) => Answer::Reply(linda.apply(op, Ending::Served, room)),
        Err(_) => Answer::Memory,
    }
}

impl<O: Sink> Ready for Plain<O> {
    ghost ready = { λ h. Unit {0} };

    ghost asked = { λ h ask answer h1. Answers
        (seen_of (O.taken h.output) (O.faults h.output) h.failed h.lindas.items) ask answer
        (seen_of (O.taken h1.output) (O.faults h1.output) h1.failed h1.lindas.items) };

    fn ask(&mut self, ask: Ask) -> Answer {
        match ask {
            Ask::Print(text) => self.print(text.as_slice()),
            Ask::NewLinda => self.new_linda(),
            Ask::Linda { call, .. } => self.call(&call),
        }
    }
}
