//! A program with the strings of its texts.
ghost use Rattle.std.specs.Prelude.{◌≡◌, slice_get};
ghost use Rattle.std.specs.Option.{option_copied};

use lua_program::{Program, Proto};
use object_store::Value;
use std::marker::Model;
use std::sync::Arc;

/// A program, and the strings of its texts by place.
#[derive(Drop)]
pub struct Loaded {
    program: Arc<Program>,
    keys: Vec<Value>,
}

impl Model for Loaded {
    ghost use Rattle.std.specs.Arc.{arc_value};
    ghost use Rattle.lua_meaning.specs.Level.{Loaded as Shown};

    ghost Value = { Shown };

    ghost use Rattle.lua_machine.specs.LoadedCode.{loaded_code};

    ghost coded = { loaded_code };

    ghost view = { λ l. record { program = arc_value l.program; keys = l.keys.items } };
}

impl Loaded {
    ghost use Rattle.std.specs.Arc.{arc_value};

    /// The program with these strings.
    pub fn of(program: Arc<Program>, keys: Vec<Value>) -> Loaded
        ensures program { result.program ≡ arc_value program }
        ensures keys { result.keys ≡ keys.items }
    {
        Loaded { program, keys }
    }

    /// The function body of this number.
    #[inline(always)]
    pub fn proto(&self, n: u32) -> Option<&Proto>
        ensures { option_copied result ≡ slice_get self.now.program.protos n }
    {
        let program: &Program = &self.program;
        program.protos.get(n as usize)
    }

    /// The string of the text of this place.
    #[inline(always)]
    pub fn key(&self, place: u32) -> Option<Value>
        ensures { result ≡ slice_get self.now.keys place }
    {
        self.keys.get(place as usize).copied()
    }

    /// The name of the script.
    pub fn name(&self) -> &[u8]
        ensures { result.now ≡ self.now.program.name }
    {
        self.program.name.as_slice()
    }
}
