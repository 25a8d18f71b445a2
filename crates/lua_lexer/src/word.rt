//! Names and reserved words.

ghost use Rattle.std.specs.Prelude.{◌≡◌, ◌∷◌, if◌then◌else◌, length, take, IfOk, IfErr};
ghost use Rattle.lua_lexer.specs.Bytes.{run, past, is_word, EndsWith};
ghost use Rattle.lua_lexer.specs.Spellings as spell;
ghost use Rattle.lua_lexer.specs.Reading as spec;
ghost use Rattle.lua_lexer.specs.View.{Reads, lex};

use crate::bytes::{next, past_word};
use crate::stop::Stop;
use lanes_arena::Bytes;
use lua_tokens::{Lexeme, Word};

/// The word, where these bytes are the others of its spelling.
#[tactic(auto, using(crate::proofs::Words::no_text, crate::proofs::Words::same_text))]
fn word_if(rest: &[u8], others: &[u8], word: Word) -> Option<Word>
    ensures { result ≡ (if spell.is_text rest.now others.now then Some word else None) }
{
    if rest == others { Some(word) } else { None }
}

/// The reserved word that is spelled by `e` and these bytes.
#[tactic(auto, using(crate::proofs::Words::no_text), unfolding(crate::specs::Spellings::keyword))]
fn behind_e(rest: &[u8]) -> Option<Word>
    ensures { result ≡ spell.keyword (101 ∷ rest.now) }
{
    if rest == b"lse".as_slice() {
        Some(Word::Else)
    } else if rest == b"lseif".as_slice() {
        Some(Word::Elseif)
    } else if rest == b"nd".as_slice() {
        Some(Word::End)
    } else {
        None
    }
}

/// The reserved word that is spelled by `f` and these bytes.
#[tactic(auto, using(crate::proofs::Words::no_text), unfolding(crate::specs::Spellings::keyword))]
fn behind_f(rest: &[u8]) -> Option<Word>
    ensures { result ≡ spell.keyword (102 ∷ rest.now) }
{
    if rest == b"alse".as_slice() {
        Some(Word::False)
    } else if rest == b"or".as_slice() {
        Some(Word::For)
    } else if rest == b"unction".as_slice() {
        Some(Word::Function)
    } else {
        None
    }
}

/// The reserved word that is spelled by `i` and these bytes.
#[tactic(auto, using(crate::proofs::Words::no_text), unfolding(crate::specs::Spellings::keyword))]
fn behind_i(rest: &[u8]) -> Option<Word>
    ensures { result ≡ spell.keyword (105 ∷ rest.now) }
{
    if rest == b"f".as_slice() {
        Some(Word::If)
    } else if rest == b"n".as_slice() {
        Some(Word::In)
    } else {
        None
    }
}

/// The reserved word that is spelled by `n` and these bytes.
#[tactic(auto, using(crate::proofs::Words::no_text), unfolding(crate::specs::Spellings::keyword))]
fn behind_n(rest: &[u8]) -> Option<Word>
    ensures { result ≡ spell.keyword (110 ∷ rest.now) }
{
    if rest == b"il".as_slice() {
        Some(Word::Nil)
    } else if rest == b"ot".as_slice() {
        Some(Word::Not)
    } else {
        None
    }
}

/// The reserved word that is spelled by `r` and these bytes.
#[tactic(auto, using(crate::proofs::Words::no_text), unfolding(crate::specs::Spellings::keyword))]
fn behind_r(rest: &[u8]) -> Option<Word>
    ensures { result ≡ spell.keyword (114 ∷ rest.now) }
{
    if rest == b"epeat".as_slice() {
        Some(Word::Repeat)
    } else if rest == b"eturn".as_slice() {
        Some(Word::Return)
    } else {
        None
    }
}

/// The reserved word that is spelled by `t` and these bytes.
#[tactic(auto, using(crate::proofs::Words::no_text), unfolding(crate::specs::Spellings::keyword))]
fn behind_t(rest: &[u8]) -> Option<Word>
    ensures { result ≡ spell.keyword (116 ∷ rest.now) }
{
    if rest == b"hen".as_slice() {
        Some(Word::Then)
    } else if rest == b"rue".as_slice() {
        Some(Word::True)
    } else {
        None
    }
}

/// The reserved word that is spelled so. The first byte tells most names from all of them.
#[tactic(auto, unfolding(crate::specs::Spellings::keyword))]
fn keyword(text: &[u8]) -> Option<Word>
    ensures { result ≡ spell.keyword text.now }
{
    let (first, rest) = next(text)?;
    match first {
        b'a' => word_if(rest, b"nd", Word::And),
        b'b' => word_if(rest, b"reak", Word::Break),
        b'd' => word_if(rest, b"o", Word::Do),
        b'e' => behind_e(rest),
        b'f' => behind_f(rest),
        b'g' => word_if(rest, b"oto", Word::Goto),
        b'i' => behind_i(rest),
        b'l' => word_if(rest, b"ocal", Word::Local),
        b'n' => behind_n(rest),
        b'o' => word_if(rest, b"r", Word::Or),
        b'r' => behind_r(rest),
        b't' => behind_t(rest),
        b'u' => word_if(rest, b"ntil", Word::Until),
        b'w' => word_if(rest, b"hile", Word::While),
        _ => None,
    }
}

/// The run of letters, digits and underscores, and what stands after it.
#[tactic(auto, using(crate::proofs::Runs::run_rules))]
fn split_word(bytes: &[u8]) -> (&[u8], &[u8])
    ensures run { result.0.now ≡ run is_word bytes.now }
    ensures rest { result.1.now ≡ past is_word bytes.now }
{
    let rest = past_word(bytes);
    let (run, behind) = bytes.split_at(bytes.len() - rest.len());
    (run, behind)
}

/// The text that begins the bytes, which end the script. It shares the bytes of the script.
#[tactic(auto, using(crate::proofs::Runs::shared_rules))]
pub fn shared<'a>(script: &Bytes, bytes: &'a [u8], text: &[u8]) -> Result<Bytes, Stop<'a>>
    requires stands { EndsWith script.now bytes.now }
    requires begins { take (length text.now) bytes.now ≡ text.now }
    ensures name { IfOk result (λ name. name ≡ text.now) }
    ensures memory { IfErr result (λ stop. stop ≡ Stop.Memory) }
{
    let start = script.as_slice().len() - bytes.len();
    Ok(script.part(start, start + text.len())?)
}

/// The name or the reserved word that stands here.
#[inline(always)]
#[tactic(auto, using(crate::proofs::Runs::run_front), unfolding(crate::specs::Reading::word_at))]
pub fn word_at<'a>(script: &Bytes, bytes: &'a [u8]) -> Result<(Lexeme, &'a [u8]), Stop<'a>>
    requires { EndsWith script.now bytes.now }
    ensures { Reads lex (spec.word_at bytes.now) result }
{
    let (text, rest) = split_word(bytes);
    match keyword(text) {
        Some(word) => Ok((Lexeme::Word(word), rest)),
        None => Ok((Lexeme::Name(shared(script, bytes, text)?), rest)),
    }
}
