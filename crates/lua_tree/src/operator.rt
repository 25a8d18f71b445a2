//! Operators.
ghost use Rattle.std.specs.Prelude.{◌≡◌, ◌↔◌, IsTrue};

/// The binary operators (manual, section 3.4), but for `and` and `or`, from those that bind least
/// to those that bind most: `< > <= >= ~= ==`, `|`, `~`, `&`, `<< >>`, `..`, `+ -`, `* // %`.
#[derive(Clone, Copy, Debug, PartialEq, Eq)]
pub enum Binary {
    Lt,
    Gt,
    Le,
    Ge,
    Ne,
    Eq,
    BitOr,
    BitXor,
    BitAnd,
    ShiftLeft,
    ShiftRight,
    Concat,
    Add,
    Sub,
    Mul,
    FloorDiv,
    Mod,
}

impl Binary {
    /// Whether equal operators in a row join from the right (manual, section 3.4.8).
    pub fn is_right_associative(self) -> bool
        ensures { IsTrue result ↔ (self ≡ Binary.Concat) }
    {
        matches!(self, Binary::Concat)
    }
}

/// The unary operators (manual, section 3.4): `not # - ~`.
#[derive(Clone, Copy, Debug, PartialEq, Eq)]
pub enum Unary {
    Not,
    Len,
    Neg,
    BitNot,
}
