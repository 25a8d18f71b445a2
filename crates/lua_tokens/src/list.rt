//! A list of tokens.
ghost use Rattle.std.specs.Prelude.{◌≡◌, [], ◌∷◌, ◌++◌, OnErr, OnOk};

use crate::token::Token;
use std::alloc::{AllocError, Global};
use std::collections::VecDeque;
use std::marker::Model;

/// How many tokens a block has.
const BLOCK: usize = 1024;

/// Tokens in order, in blocks, so that whoever takes them gives their memory back as it goes.
#[derive(Drop)]
pub struct TokenList {
    alloc: Global,
    blocks: VecDeque<Vec<Token>>,
    last: Vec<Token>,
}

impl Model for TokenList {
    ghost use Rattle.std.specs.Prelude.{List, ◌++◌};
    ghost use Rattle.lua_tokens.specs.declared.token.Token.{Token};
    ghost use Rattle.lua_tokens.specs.Blocks.{joined, AllFilled};

    ghost Value = { List Token };

    ghost view = { λ t. joined t.blocks.items ++ t.last.items };

    ghost invariant = { λ t. AllFilled t.blocks.items };
}

impl TokenList {
    /// A list of no tokens, which takes no memory.
    #[tactic(auto, using(crate::proofs::Joined::joined_nil))]
    pub fn new(alloc: Global) -> TokenList
        ensures { result ≡ [] }
    {
        TokenList {
            alloc,
            blocks: VecDeque::new(alloc),
            last: Vec::new(alloc),
        }
    }

    /// Begins a new block, if the last one is full.
    #[tactic(auto, using(crate::proofs::Joined::block_rules))]
    fn make_room(&mut self) -> Result<(), AllocError>
        ensures { self.new ≡ self.old }
    {
        if self.last.len() < BLOCK {
            return Ok(());
        }
        let next = Vec::with_capacity(self.alloc, BLOCK)?;
        let full = std::mem::replace(&mut self.last, next);
        match self.blocks.push_back(full) {
            Ok(()) => Ok(()),
            Err(refused) => {
                self.last = refused.value;
                Err(AllocError)
            }
        }
    }

    /// Puts the token last. A refusal leaves the list as it is.
    #[tactic(auto, using(crate::proofs::Joined::block_rules))]
    pub fn push(&mut self, token: Token) -> Result<(), AllocError>
        ensures pushed { OnOk result (self.new ≡ self.old ++ token ∷ []) }
        ensures refused { OnErr result (self.new ≡ self.old) }
    {
        self.make_room()?;
        self.last.push(token)?;
        Ok(())
    }

    /// The first tokens, which leave the list; none only if none are left.
    #[tactic(auto, using(crate::proofs::Joined::block_rules))]
    pub fn take_block(&mut self) -> Vec<Token>
        ensures order { self.old ≡ result.items ++ self.new }
        ensures some { result.items ≡ [] → self.old ≡ [] }
    {
        match self.blocks.pop_front() {
            Some(block) => block,
            None => std::mem::replace(&mut self.last, Vec::new(self.alloc)),
        }
    }
}
