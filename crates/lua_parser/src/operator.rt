//! Binary operators by their levels.

ghost use Rattle.std.specs.Prelude.{◌≡◌};
ghost use Rattle.lua_tokens.specs.declared.token.Lexeme.TheVariants as l;
ghost use Rattle.lua_grammar.specs.Next.{an_op};
ghost use Rattle.lua_grammar.specs.Tokens as table;
ghost use Rattle.lua_parser.specs.Operators.{op, maybe_op, maybe_binary};

use lua_tokens::{Lexeme, Sign, Word};
use lua_tree::Binary;

/// A binary operator of the manual's table of precedence (section 3.4.8).
#[derive(Clone, Copy)]
pub enum Operator {
    Or,
    And,
    Plain(Binary),
}

impl Operator {
    /// From 1 for those that bind least.
    pub fn level(self) -> u8
        ensures { result ≡ table.op_level (op self) }
    {
        match self {
            Operator::Or => 1,
            Operator::And => 2,
            Operator::Plain(
                Binary::Lt | Binary::Gt | Binary::Le | Binary::Ge | Binary::Ne | Binary::Eq,
            ) => 3,
            Operator::Plain(Binary::BitOr) => 4,
            Operator::Plain(Binary::BitXor) => 5,
            Operator::Plain(Binary::BitAnd) => 6,
            Operator::Plain(Binary::ShiftLeft | Binary::ShiftRight) => 7,
            Operator::Plain(Binary::Concat) => 8,
            Operator::Plain(Binary::Add | Binary::Sub) => 9,
            Operator::Plain(Binary::Mul | Binary::FloorDiv | Binary::Mod) => 10,
        }
    }

    /// The least level of the operators in its right part.
    #[tactic(auto, using(crate::proofs::OpTurns::right_rules))]
    pub fn right_level(self) -> u8
        ensures { result ≡ table.right_level (table.op_level (op self)) }
    {
        match self {
            Operator::Plain(binary) => {
                let level = self.level();
                if binary.is_right_associative() {
                    level
                } else {
                    level + 1
                }
            }
            Operator::Or => 2,
            Operator::And => 3,
        }
    }
}

/// The binary operator that this sign is.
fn of_sign(sign: Sign) -> Option<Binary>
    ensures { maybe_binary result ≡ an_op (l.Sign sign) }
{
    match sign {
        Sign::Less => Some(Binary::Lt),
        Sign::Greater => Some(Binary::Gt),
        Sign::LessEqual => Some(Binary::Le),
        Sign::GreaterEqual => Some(Binary::Ge),
        Sign::NotEqual => Some(Binary::Ne),
        Sign::EqualEqual => Some(Binary::Eq),
        Sign::Pipe => Some(Binary::BitOr),
        Sign::Tilde => Some(Binary::BitXor),
        Sign::Amp => Some(Binary::BitAnd),
        Sign::ShiftLeft => Some(Binary::ShiftLeft),
        Sign::ShiftRight => Some(Binary::ShiftRight),
        Sign::DotDot => Some(Binary::Concat),
        Sign::Plus => Some(Binary::Add),
        Sign::Minus => Some(Binary::Sub),
        Sign::Star => Some(Binary::Mul),
        Sign::SlashSlash => Some(Binary::FloorDiv),
        Sign::Percent => Some(Binary::Mod),
        _ => None,
    }
}

/// The binary operator that this is.
pub fn binary_operator(what: &Lexeme) -> Option<Operator>
    ensures { maybe_op result ≡ an_op what.now }
{
    match what {
        Lexeme::Word(Word::Or) => Some(Operator::Or),
        Lexeme::Word(Word::And) => Some(Operator::And),
        Lexeme::Sign(sign) => {
            let binary = of_sign(*sign)?;
            Some(Operator::Plain(binary))
        }
        _ => None,
    }
}
