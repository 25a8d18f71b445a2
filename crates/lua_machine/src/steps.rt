//! Steps and faults.
ghost use Rattle.std.specs.Prelude.{◌≡◌};
ghost use Rattle.lua_meaning.specs.Run.{Follows};
ghost use Rattle.lua_meaning.specs.Level.{tick};

use crate::host::Host;
use crate::machine::{Done, Machine};
use lua_meaning::Fault;

impl<H: Host> Machine<H> {
    ghost use Rattle.lua_machine.specs.Does.{world, point, unit};

    /// One step.
    #[inline(always)]
    pub fn tick(&mut self) -> Done
        ensures meaning { Follows H.asked (point self.old) (tick (world self.old)) (point self.new)
            (unit result self.new) (world self.new) }
        ensures stack { self.new.stack ≡ self.old.stack }
    {
        if self.left < 2 {
            self.spend();
            return Done::Failed;
        }
        self.left -= 1;
        Done::Well
    }

    /// The budget is spent.
    #[cold]
    pub fn spend(&mut self)
        ensures { self.new ≡ record self.old { left = 0; fault = Fault.Spent } }
    {
        self.left = 0;
        self.fault = Fault::Spent;
    }

    /// A place that the program or the state doesn't have.
    #[cold]
    pub fn broken(&mut self)
        ensures { self.new ≡ record self.old { fault = Fault.Broken } }
    {
        self.fault = Fault::Broken;
    }

    /// Memory ran out.
    #[cold]
    pub fn lose(&mut self)
        ensures { self.new ≡ record self.old { fault = Fault.Memory } }
    {
        self.fault = Fault::Memory;
    }
}
