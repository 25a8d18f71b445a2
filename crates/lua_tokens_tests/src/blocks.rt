//! Lists of more tokens than one block has.

use lua_tokens::{Lexeme, Place, Token, TokenList};
use std::test::Fail;

#[test]
fn blocks_in_order(rt: HostRuntime) -> Result<(), Fail> {
    let mut list = TokenList::new(rt.alloc());
    for at in 0..3000_u32 {
        list.push(Token {
            what: Lexeme::Int(i64::from(at)),
            place: Place { at, line: 1 },
        })?;
    }
    let mut next: u32 = 0;
    for _ in 0..4 {
        for token in &list.take_block() {
            assert_eq!(rt; token.place.at, next);
            next = next.saturating_add(1);
        }
    }
    assert_eq!(rt; next, 3000);
    assert!(rt; list.take_block().is_empty());
    Ok(())
}
