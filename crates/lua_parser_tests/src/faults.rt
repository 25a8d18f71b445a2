//! Faults of scripts.

use crate::tokens::tokens_of;
use lanes_arena::Bytes;
use lua_parser::parse;
use lua_tokens::Place;
use std::process::Abort;
use std::test::Fail;

/// Scripts with a blank after each token, and the number and line of the token that is refused,
/// with the text where that token is `x`.
const FAULTS: [(&[u8], u32, u32, &[u8]); 9] = [
    (b"x = = 1 ", 2, 1, b"unexpected 'x'"),
    (b"x =\n", 2, 2, b"unexpected 'x'"),
    (b"x = 2\n^ 3 ", 3, 2, b"float operator"),
    (b"local x < close > ", 3, 1, b"unknown attribute"),
    (b"goto\n", 1, 2, b"unexpected 'x'"),
    (b"goto end ", 1, 1, b"unexpected 'x'"),
    (b"do\n:: x ", 3, 2, b"unexpected 'x'"),
    (b":: x : : ", 2, 1, b"unexpected 'x'"),
    (b"return\n:: x :: ", 1, 2, b"unexpected 'x'"),
];

#[test]
fn faults_of_scripts(rt: HostRuntime) -> Result<(), Fail> {
    let bytes = Some(Bytes::of(rt.alloc(), b"x")?);
    for (script, number, line, wanted) in FAULTS {
        let tokens = tokens_of(rt.alloc(), script)?;
        let fault = parse(rt.alloc(), tokens).err().ok_or("a fault")?;
        let mut text = Vec::new(rt.alloc());
        fault.push_text(&mut text, &bytes)?;
        assert_eq!(rt; text.as_slice(), wanted, "at {script:?}");
        assert_eq!(rt; fault.line(), line, "at {script:?}");
        assert_eq!(rt;
            fault.place(),
            Some(Place { at: number, line }),
            "at {script:?}"
        );
    }
    Ok(())
}

#[test]
fn the_end_of_a_script(rt: HostRuntime) -> Result<(), Fail> {
    let tokens = tokens_of(rt.alloc(), b"x = ")?;
    let fault = parse(rt.alloc(), tokens).err().ok_or("a fault")?;
    let mut text = Vec::new(rt.alloc());
    fault.push_text(&mut text, &None)?;
    assert_eq!(rt; text.as_slice(), b"unexpected end".as_slice());
    Ok(())
}
