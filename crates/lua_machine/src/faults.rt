//! Strings and errors.
ghost use Rattle.std.specs.Prelude.{◌≡◌, ◌++◌, IfOk, codes};
ghost use Rattle.lua_meaning.specs.Run.{interned};
ghost use Rattle.lua_meaning.specs.Faults.{position};

use crate::host::Host;
use crate::loaded::Loaded;
use crate::machine::{Done, Machine};
use itoa::Buffer;
use lua_meaning::Fault;
use object_store::LuaFault;
use std::alloc::{AllocError, Global};

/// `NAME:LINE: ` and then a text; for the line 0 the text alone.
#[cold]
pub fn with_position(
    alloc: Global,
    p: &Loaded,
    line: u32,
    text: &[u8],
) -> Result<Vec<u8>, AllocError>
    ensures { IfOk result (λ bytes. bytes.items ≡ position p.now line ++ text.now) }
{
    let mut bytes = Vec::new(alloc);
    if line != 0 {
        bytes.extend_from_slice(p.name())?;
        bytes.push(b':')?;
        let mut buffer = Buffer::new();
        bytes.extend_from_slice(buffer.format(line as i64).as_bytes())?;
        bytes.extend_from_slice(b": ")?;
    }
    bytes.extend_from_slice(text)?;
    Ok(bytes)
}

impl<H: Host> Machine<H> {
    ghost use Rattle.lua_machine.specs.Does.{world, OneOf};
    ghost use Rattle.lua_machine.specs.Failing.{Failing, FailingAt};

    /// The string of these bytes.
    pub fn intern(&mut self, text: &[u8]) -> Done
        ensures { OneOf H.asked (interned text.now (world self.old)) self.old result self.new }
    {
        match self.state.intern(text) {
            Ok(value) => {
                self.value = value;
                Done::Well
            }
            Err(_) => {
                self.lose();
                Done::Failed
            }
        }
    }

    /// Raises the string of these bytes.
    #[cold]
    pub fn raise(&mut self, text: &[u8])
        ensures { Failing text.now self.old self.new }
    {
        match self.state.intern(text) {
            Ok(value) => self.fault = Fault::Raised(value),
            Err(_) => self.lose(),
        }
    }

    /// Raises the string of these bytes after a position; for the line 0 it has none.
    #[cold]
    pub fn raise_at(&mut self, p: &Loaded, line: u32, text: &[u8])
        ensures { Failing (position p.now line ++ text.now) self.old self.new }
    {
        match with_position(self.alloc, p, line, text) {
            Ok(bytes) => self.raise(bytes.as_slice()),
            Err(_) => self.lose(),
        }
    }

    /// There is no further level.
    #[cold]
    pub fn overflow(&mut self)
        ensures { Failing (codes "stack overflow") self.old self.new }
    {
        self.raise(b"stack overflow");
    }

    /// Raises a fault of an operator or a library function on this line; for the line 0 it has no
    /// position.
    #[cold]
    #[inline(never)]
    pub fn fault_at(&mut self, p: &Loaded, line: u32, fault: LuaFault)
        ensures { FailingAt p.now line fault self.old self.new }
    {
        if let LuaFault::Memory = fault {
            self.lose();
            return;
        }
        match fault.text(self.alloc) {
            Ok(text) => self.raise_at(p, line, text.as_slice()),
            Err(_) => self.lose(),
        }
    }
}
