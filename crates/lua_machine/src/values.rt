//! The value and the stack.
ghost use Rattle.std.specs.Prelude.{◌≡◌, ◌≤◌, length, drop};
ghost use Rattle.lua_meaning.specs.Names.{first};

use crate::host::Host;
use crate::machine::{Done, Machine, Test, Window};
use object_store::Value;

impl<H: Host> Machine<H> {
    ghost use Rattle.std.specs.Prelude.{Ok};
    ghost use Rattle.lua_meaning.specs.Names.{is_true};
    ghost use Rattle.lua_machine.specs.Piled.{cut};
    ghost use Rattle.lua_machine.specs.Does.{Fits, frame, truth};
    ghost use Rattle.lua_machine.specs.Moved.{Pushed};

    /// Puts the value onto the stack.
    #[inline(always)]
    pub fn push(&mut self) -> Done
        ensures { Pushed self.old result self.new }
    {
        match self.stack.push(self.value) {
            Ok(()) => Done::Well,
            Err(_) => {
                self.lose();
                Done::Failed
            }
        }
    }

    /// Takes the first value from a place of the stack on, nil where there is none, and drops all
    /// of them.
    #[inline(always)]
    pub fn take_first(&mut self, at: usize)
        requires { at ≤ length self.old.stack.values }
        ensures { self.new ≡ record self.old {
          value = first (drop at self.old.stack.values);
          stack
              = cut at self.old.stack;
        } }
    {
        if at < self.stack.len() {
            self.value = self.stack.at(at, 0);
            self.stack.cut(at);
        } else {
            self.value = Value::Nil;
        }
    }

    /// The first value of `...`.
    pub fn first_dot(&mut self, f: &Window)
        requires { Fits f.now self.old.stack }
        ensures { self.new ≡ record self.old { value = first (frame f.now self.old.stack).dots } }
    {
        self.value = if f.dots < f.base {
            self.stack.at(f.dots, 0)
        } else {
            Value::Nil
        };
    }

    /// Whether the value is true.
    #[inline(always)]
    pub fn judge(&self) -> Test
        ensures { truth result self.now ≡ Ok (is_true self.now.value) }
    {
        match self.value {
            Value::Nil => Test::No,
            Value::False => Test::No,
            _ => Test::Yes,
        }
    }
}
