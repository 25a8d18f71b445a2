//! Why a tree is no program.
ghost use Rattle.std.specs.Prelude.{◌≡◌, ◌++◌, OnOk};
ghost use Rattle.lua_scope.specs.Faults as spec;

use lanes_arena::Bytes;
use lua_tokens::Place;
use std::alloc::AllocError;
use std::fmt;

/// Why a tree is no program (manual, sections 3.3.4, 3.3.7, 3.4.11 and 3.5).
#[derive(Drop, PartialEq, Eq)]
pub enum ScopeFault {
    /// The place of the name that is assigned to.
    ConstAssigned(Place),
    BreakOutside(Place),
    VarargOutside(Place),
    /// The place where the local is declared that would be the 201st visible one of its function.
    TooManyLocals(Place),
    /// The place of a variable or a declared name `_ENV`.
    EnvName(Place),
    /// The name to which a goto would go, and the place of the goto.
    NoLabel(Bytes, Place),
    /// The name of a label, and the place of the second label of that name.
    LabelTwice(Bytes, Place),
    /// The place of the goto.
    JumpIntoLocal(Place),
    Memory,
}

impl From<AllocError> for ScopeFault {
    ghost use Rattle.std.specs.Prelude.{◌≡◌};
    ghost use Rattle.lua_scope.specs.declared.fault.ScopeFault.TheVariants.{Memory};

    ghost from_gives = { λ _ e. e ≡ Memory };

    fn from(_: AllocError) -> ScopeFault {
        ScopeFault::Memory
    }
}

impl ScopeFault {
    /// The line of the script where the fault is, from 1 on. Want of memory has line 0.
    pub fn line(&self) -> u32
        ensures { result ≡ spec.line_of self.now }
    {
        match self {
            ScopeFault::ConstAssigned(place)
            | ScopeFault::BreakOutside(place)
            | ScopeFault::VarargOutside(place)
            | ScopeFault::TooManyLocals(place)
            | ScopeFault::EnvName(place)
            | ScopeFault::NoLabel(_, place)
            | ScopeFault::LabelTwice(_, place)
            | ScopeFault::JumpIntoLocal(place) => place.line,
            ScopeFault::Memory => 0,
        }
    }

    /// The label that the text names between its two parts, if it names one.
    fn label(&self) -> &[u8]
        ensures { result.now ≡ spec.label_of self.now }
    {
        match self {
            ScopeFault::NoLabel(name, _) | ScopeFault::LabelTwice(name, _) => name.as_slice(),
            _ => b"",
        }
    }

    /// The text up to the label, or the whole text.
    fn before_label(&self) -> &'static [u8]
        ensures { result.now ≡ spec.before_label self.now }
    {
        match self {
            ScopeFault::ConstAssigned(_) => b"assignment to a constant",
            ScopeFault::BreakOutside(_) => b"break outside a loop",
            ScopeFault::VarargOutside(_) => b"'...' outside a vararg function",
            ScopeFault::TooManyLocals(_) => b"too many local variables",
            ScopeFault::EnvName(_) => b"_ENV is not supported",
            ScopeFault::NoLabel(_, _) => b"no visible label '",
            ScopeFault::LabelTwice(_, _) => b"label '",
            ScopeFault::JumpIntoLocal(_) => b"goto jumps into the scope of a local",
            ScopeFault::Memory => b"not enough memory",
        }
    }

    /// The text after the label.
    fn after_label(&self) -> &'static [u8]
        ensures { result.now ≡ spec.after_label self.now }
    {
        match self {
            ScopeFault::NoLabel(_, _) => b"'",
            ScopeFault::LabelTwice(_, _) => b"' already defined",
            _ => b"",
        }
    }

    /// Puts what the fault says after this text. At an `Err` the text may have grown by a part of
    /// it.
    pub fn push_text(&self, text: &mut Vec<u8>) -> Result<(), AllocError>
        ensures { OnOk result (text.new.items ≡ text.old.items ++ spec.text_of self.now) }
    {
        text.extend_from_slice(self.before_label())?;
        text.extend_from_slice(self.label())?;
        text.extend_from_slice(self.after_label())
    }
}

impl fmt::Debug for ScopeFault {
    fn fmt<W: fmt::Write>(&self, f: &mut fmt::Formatter<W>) -> fmt::Result {
        let name = match self {
            ScopeFault::ConstAssigned(_) => "ConstAssigned",
            ScopeFault::BreakOutside(_) => "BreakOutside",
            ScopeFault::VarargOutside(_) => "VarargOutside",
            ScopeFault::TooManyLocals(_) => "TooManyLocals",
            ScopeFault::EnvName(_) => "EnvName",
            ScopeFault::NoLabel(_, _) => "NoLabel",
            ScopeFault::LabelTwice(_, _) => "LabelTwice",
            ScopeFault::JumpIntoLocal(_) => "JumpIntoLocal",
            ScopeFault::Memory => "Memory",
        };
        f.write_str(name)
    }
}
