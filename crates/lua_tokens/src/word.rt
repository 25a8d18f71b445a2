//! Reserved words.

/// The reserved words of Lua (manual, section 3.1).
#[derive(Clone, Copy, Debug, PartialEq, Eq)]
pub enum Word {
    And,
    Break,
    Do,
    Else,
    Elseif,
    End,
    False,
    For,
    Function,
    Goto,
    If,
    In,
    Local,
    Nil,
    Not,
    Or,
    Repeat,
    Return,
    Then,
    True,
    Until,
    While,
}
