//! A cursor over tokens.

ghost use Rattle.std.specs.Option.{is_some};
ghost use Rattle.std.specs.Prelude.{◌≡◌, ◌↔◌, IsTrue, true, [], ◌≤◌, ◌∷◌, length, drop};
ghost use Rattle.lua_tokens.specs.declared.token.Lexeme.TheVariants as l;
ghost use Rattle.lua_grammar.specs.Next.{an_atom, a_unary};
ghost use Rattle.lua_grammar.specs.Input.{expect, attribute_name};
ghost use Rattle.lua_parser.specs.Looks.{first_place, begun, what_of, rest, place_of, name_at, text_at, kind_at, kind_in, op_at, unary_at, begins_at, ends_at, suffix_at, after, Takes, Needs};
ghost use Rattle.lua_parser.specs.Operators.{found_op};
ghost use Rattle.lua_parser.specs.OneStat.{needs_name};
ghost use Rattle.lua_parser.specs.Reads.{Reads};
ghost use Rattle.lua_parser.specs.Starts.{start_at};

use crate::operator::{Operator, binary_operator};
use crate::start::{Start, start_of};
use crate::stop::Stop;
use lanes_arena::Bytes;
use lua_tokens::{Lexeme, Place, Sign, Token, TokenList, Word};
use lua_tree::{ExprKind, Unary};
use std::marker::Model;

/// The tokens that are left. A block of them is dropped as soon as they are taken.
#[derive(Drop)]
pub struct Tokens {
    block: Vec<Token>,
    at: usize,
    others: TokenList,
}

impl Model for Tokens {
    ghost use Rattle.std.specs.Prelude.{◌≡◌, ◌≤◌, List, [], ◌++◌, length, drop};
    ghost use Rattle.lua_tokens.specs.declared.token.Token.{Token};

    ghost Value = { List Token };

    ghost view = { λ t. drop t.at t.block.items ++ t.others };

    ghost invariant = { λ t. length t.block.items ≤ t.at → t.others ≡ [] };
}

/// Whether this is an atom.
#[inline]
fn is_atom(what: &Lexeme) -> bool
    ensures { result ≡ is_some (an_atom what.now) }
{
    matches!(
        what,
        Lexeme::Int(_)
            | Lexeme::Text(_)
            | Lexeme::Word(Word::Nil | Word::True | Word::False)
            | Lexeme::Sign(Sign::DotDotDot)
    )
}

/// The node of an atom at this place.
fn atom_kind(what: Lexeme, place: Place) -> Option<ExprKind>
    ensures { result ≡ kind_in (an_atom what) place }
{
    match what {
        Lexeme::Int(n) => Some(ExprKind::Int(n)),
        Lexeme::Text(text) => Some(ExprKind::Text(text)),
        Lexeme::Word(Word::Nil) => Some(ExprKind::Nil),
        Lexeme::Word(Word::True) => Some(ExprKind::True),
        Lexeme::Word(Word::False) => Some(ExprKind::False),
        Lexeme::Sign(Sign::DotDotDot) => Some(ExprKind::Dots(place)),
        _ => None,
    }
}

/// The unary operator that this is.
fn unary(what: &Lexeme) -> Option<Unary>
    ensures { result ≡ a_unary what.now }
{
    match what {
        Lexeme::Word(Word::Not) => Some(Unary::Not),
        Lexeme::Sign(Sign::Hash) => Some(Unary::Len),
        Lexeme::Sign(Sign::Minus) => Some(Unary::Neg),
        Lexeme::Sign(Sign::Tilde) => Some(Unary::BitNot),
        _ => None,
    }
}

impl Tokens {
    #[tactic(auto, using(crate::proofs::TokenBlocks::begin_rules))]
    pub fn new(all: TokenList) -> Tokens
        ensures { result ≡ all }
    {
        let mut others = all;
        let block = others.take_block();
        Tokens {
            block,
            at: 0,
            others,
        }
    }

    /// The next token, if there is one.
    #[inline]
    #[tactic(auto, using(crate::proofs::TokenBlocks::peek_rules))]
    fn peek(&self) -> Option<&Token>
        ensures { self.now ≡ begun result (rest self.now) }
    {
        if self.at < self.block.len() {
            return Some(&self.block[self.at]);
        }
        None
    }

    /// Goes past the next token, if there is one.
    #[inline]
    #[tactic(auto, using(crate::proofs::TokenBlocks::take_rules))]
    pub fn take(&mut self)
        ensures { self.new ≡ rest self.old }
    {
        if self.at < self.block.len() {
            self.at += 1;
            if self.at == self.block.len() {
                self.block = self.others.take_block();
                self.at = 0;
            }
        }
    }

    /// Goes past the next token and answers its place.
    #[inline]
    #[tactic(auto, using(crate::proofs::TokenBlocks::place_rules))]
    pub fn take_place(&mut self) -> Place
        requires { 1 ≤ length self.old }
        ensures place { first_place self.old ≡ Some result }
        ensures left { self.new ≡ rest self.old }
    {
        let place = self.first().place;
        self.take();
        place
    }

    /// Goes past the next token and answers what it was: the end of a script if no token is left.
    #[tactic(auto, using(crate::proofs::TokenBlocks::what_rules))]
    fn take_what(&mut self) -> Lexeme
        ensures what { result ≡ what_of self.old }
        ensures left { self.new ≡ rest self.old }
    {
        if self.at >= self.block.len() {
            return Lexeme::End;
        }
        let what = std::mem::replace(&mut self.block[self.at].what, Lexeme::End);
        self.take();
        what
    }

    /// The place of the next token, if it is this sign.
    #[inline]
    #[tactic(auto, using(crate::proofs::Standing::sign_rules))]
    fn sign_here(&self, sign: Sign) -> Option<Place>
        ensures { result ≡ place_of (l.Sign sign) self.now }
    {
        let first = self.peek()?;
        match first.what {
            Lexeme::Sign(next) => {
                if next == sign {
                    Some(first.place)
                } else {
                    None
                }
            }
            _ => None,
        }
    }

    /// The place of the next token, if it is this word.
    #[inline]
    #[tactic(auto, using(crate::proofs::Standing::word_rules))]
    fn word_here(&self, word: Word) -> Option<Place>
        ensures { result ≡ place_of (l.Word word) self.now }
    {
        let first = self.peek()?;
        match first.what {
            Lexeme::Word(next) => {
                if next == word {
                    Some(first.place)
                } else {
                    None
                }
            }
            _ => None,
        }
    }

    /// Takes this sign, if it comes next.
    pub fn sign(&mut self, sign: Sign) -> Option<Place>
        ensures found { result ≡ place_of (l.Sign sign) self.old }
        ensures left { self.new ≡ after result self.old }
    {
        let place = self.sign_here(sign)?;
        self.take();
        Some(place)
    }

    /// Takes this word, if it comes next.
    pub fn word(&mut self, word: Word) -> Option<Place>
        ensures found { result ≡ place_of (l.Word word) self.old }
        ensures left { self.new ≡ after result self.old }
    {
        let place = self.word_here(word)?;
        self.take();
        Some(place)
    }

    /// Takes this sign, if it comes next and there is room for it.
    pub fn sign_if(&mut self, sign: Sign, room: bool) -> Result<Option<Place>, Stop>
        ensures { Takes (place_of (l.Sign sign) self.old) room result self.old self.new }
    {
        let Some(place) = self.sign_here(sign) else {
            return Ok(None);
        };
        if !room {
            return Err(Stop::Deep);
        }
        self.take();
        Ok(Some(place))
    }

    /// Takes this word, if it comes next and there is room for it.
    pub fn word_if(&mut self, word: Word, room: bool) -> Result<Option<Place>, Stop>
        ensures { Takes (place_of (l.Word word) self.old) room result self.old self.new }
    {
        let Some(place) = self.word_here(word) else {
            return Ok(None);
        };
        if !room {
            return Err(Stop::Deep);
        }
        self.take();
        Ok(Some(place))
    }

    /// Takes this sign, which has to come next.
    #[tactic(auto, using(crate::proofs::Steps::expect_rules))]
    pub fn expect_sign(&mut self, sign: Sign) -> Result<Place, Stop>
        ensures { Reads (expect (l.Sign sign) self.old) result self.new }
    {
        match self.sign(sign) {
            Some(place) => Ok(place),
            None => Err(Stop::Bad),
        }
    }

    /// Takes this word, which has to come next.
    #[tactic(auto, using(crate::proofs::Steps::expect_rules))]
    pub fn expect_word(&mut self, word: Word) -> Result<Place, Stop>
        ensures { Reads (expect (l.Word word) self.old) result self.new }
    {
        match self.word(word) {
            Some(place) => Ok(place),
            None => Err(Stop::Bad),
        }
    }

    /// Takes a name, which has to come next, where there is room for it.
    #[tactic(auto, using(crate::proofs::OneStats::needs_name_rules))]
    pub fn need_name(&mut self, room: bool) -> Result<(Bytes, Place), Stop>
        ensures { Reads (needs_name room self.old) result self.new }
    {
        match self.name_if(room)? {
            Some((name, place)) => Ok((name, place)),
            None => Err(Stop::Bad),
        }
    }

    /// What goes on with a block here.
    #[inline]
    #[tactic(auto, using(crate::proofs::Standing::start_rules))]
    pub fn start(&self) -> Start
        ensures { result ≡ start_at self.now }
    {
        match self.peek() {
            Some(first) => start_of(&first.what),
            None => Start::End,
        }
    }

    /// Takes a name, if one comes next and there is room for it.
    #[tactic(auto, using(crate::proofs::Standing::name_rules))]
    pub fn name_if(&mut self, room: bool) -> Result<Option<(Bytes, Place)>, Stop>
        ensures { Takes (name_at self.old) room result self.old self.new }
    {
        let Some(first) = self.peek() else {
            return Ok(None);
        };
        let Lexeme::Name(_) = &first.what else {
            return Ok(None);
        };
        if !room {
            return Err(Stop::Deep);
        }
        let place = first.place;
        match self.take_what() {
            Lexeme::Name(name) => Ok(Some((name, place))),
            _ => Ok(None),
        }
    }

    /// Takes a text, if one comes next and there is room for it.
    #[tactic(auto, using(crate::proofs::Standing::text_rules))]
    pub fn text_if(&mut self, room: bool) -> Result<Option<(Bytes, Place)>, Stop>
        ensures { Takes (text_at self.old) room result self.old self.new }
    {
        let Some(first) = self.peek() else {
            return Ok(None);
        };
        let Lexeme::Text(_) = &first.what else {
            return Ok(None);
        };
        if !room {
            return Err(Stop::Deep);
        }
        let place = first.place;
        match self.take_what() {
            Lexeme::Text(text) => Ok(Some((text, place))),
            _ => Ok(None),
        }
    }

    /// Takes a name, which has to come next.
    pub fn expect_name(&mut self) -> Result<(Bytes, Place), Stop>
        ensures { Needs (name_at self.old) result self.old self.new }
    {
        match self.name_if(true)? {
            Some((name, place)) => Ok((name, place)),
            None => Err(Stop::Bad),
        }
    }

    /// Takes the name `const`, which has to come next.
    #[tactic(auto, using(crate::proofs::Standing::attribute_rules))]
    pub fn attribute(&mut self) -> Result<Place, Stop>
        ensures { Reads (attribute_name self.old) result self.new }
    {
        let Some(first) = self.peek() else {
            return Err(Stop::Bad);
        };
        let Lexeme::Name(name) = &first.what else {
            return Err(Stop::Bad);
        };
        if name.as_slice() == b"const".as_slice() {
            let place = first.place;
            self.take();
            return Ok(place);
        }
        Err(Stop::Attribute)
    }

    /// Whether a token comes next that may follow `return` where it gives no values.
    #[inline]
    #[tactic(auto, using(crate::proofs::Standing::ends_rules))]
    pub fn ends_return(&self) -> bool
        ensures { result ≡ ends_at self.now }
    {
        let Some(first) = self.peek() else {
            return false;
        };
        match first.what {
            Lexeme::End | Lexeme::Sign(Sign::Semicolon) => true,
            Lexeme::Word(Word::End | Word::Else | Word::Elseif | Word::Until) => true,
            _ => false,
        }
    }

    /// Takes the end of the script, if it comes next.
    #[tactic(auto, using(crate::proofs::Standing::end_rules))]
    pub fn end(&mut self) -> Option<Place>
        ensures found { result ≡ place_of l.End self.old }
        ensures left { self.new ≡ after result self.old }
    {
        let first = self.peek()?;
        match first.what {
            Lexeme::End => {
                let place = first.place;
                self.take();
                Some(place)
            }
            _ => None,
        }
    }

    /// Whether no token is left.
    #[inline]
    pub fn is_empty(&self) -> bool
        ensures { IsTrue result ↔ (self.now ≡ []) }
    {
        self.peek().is_none()
    }

    /// The node of an atom, which is taken if it comes next.
    #[tactic(auto, using(crate::proofs::Standing::kind_rules))]
    pub fn atom(&mut self) -> Result<Option<(ExprKind, Place)>, Stop>
        ensures { Takes (kind_at self.old) true result self.old self.new }
    {
        let Some(first) = self.peek() else {
            return Ok(None);
        };
        if !is_atom(&first.what) {
            return Ok(None);
        }
        let place = first.place;
        match atom_kind(self.take_what(), place) {
            Some(kind) => Ok(Some((kind, place))),
            None => Ok(None),
        }
    }

    /// Takes a binary operator from this level on, if one comes next and there is room for it.
    #[tactic(auto, using(crate::proofs::Standing::op_rules))]
    pub fn operator_if(&mut self, least: u8, room: bool) -> Result<Option<(Operator, Place)>, Stop>
        ensures { Takes (op_at least self.old) room (found_op result) self.old self.new }
    {
        let Some(first) = self.peek() else {
            return Ok(None);
        };
        let Some(operator) = binary_operator(&first.what) else {
            return Ok(None);
        };
        if operator.level() < least {
            return Ok(None);
        }
        if !room {
            return Err(Stop::Deep);
        }
        let place = first.place;
        self.take();
        Ok(Some((operator, place)))
    }

    /// Whether a binary operator from this level on comes next.
    #[inline]
    #[tactic(auto, using(crate::proofs::Standing::seen_rules))]
    pub fn has_operator(&self, least: u8) -> bool
        ensures { result ≡ is_some (op_at least self.now) }
    {
        let Some(first) = self.peek() else {
            return false;
        };
        let Some(operator) = binary_operator(&first.what) else {
            return false;
        };
        least <= operator.level()
    }

    /// Takes a unary operator, if one comes next and there is room for it.
    #[tactic(auto, using(crate::proofs::Standing::unary_rules))]
    pub fn unary_if(&mut self, room: bool) -> Result<Option<(Unary, Place)>, Stop>
        ensures { Takes (unary_at self.old) room result self.old self.new }
    {
        let Some(first) = self.peek() else {
            return Ok(None);
        };
        let Some(operator) = unary(&first.what) else {
            return Ok(None);
        };
        if !room {
            return Err(Stop::Deep);
        }
        let place = first.place;
        self.take();
        Ok(Some((operator, place)))
    }

    /// Whether an expression may begin with the next token.
    #[inline]
    #[tactic(auto, using(crate::proofs::Standing::begins_rules))]
    pub fn begins_expr(&self) -> bool
        ensures { result ≡ begins_at self.now }
    {
        let Some(first) = self.peek() else {
            return false;
        };
        match first.what {
            Lexeme::Name(_) | Lexeme::Int(_) | Lexeme::Text(_) => true,
            Lexeme::Word(Word::Nil | Word::True | Word::False | Word::Function | Word::Not) => true,
            Lexeme::Sign(
                Sign::DotDotDot
                | Sign::OpenParen
                | Sign::OpenBrace
                | Sign::Hash
                | Sign::Minus
                | Sign::Tilde,
            ) => true,
            _ => false,
        }
    }

    /// Whether an index or a call begins with the next token.
    #[inline]
    #[tactic(auto, using(crate::proofs::Standing::suffix_rules))]
    pub fn has_suffix(&self) -> bool
        ensures { result ≡ suffix_at self.now }
    {
        let Some(first) = self.peek() else {
            return false;
        };
        match first.what {
            Lexeme::Text(_) => true,
            Lexeme::Sign(
                Sign::OpenParen | Sign::OpenBrace | Sign::OpenBracket | Sign::Colon | Sign::Dot,
            ) => true,
            _ => false,
        }
    }

    /// The next token.
    pub fn first(&self) -> &Token
        requires { 1 ≤ length self.now }
        ensures { self.now ≡ result.now ∷ drop 1 self.now }
    {
        &self.block[self.at]
    }
}
