//! What the names of scripts refer to. What is wanted comes from the manual's rules, section 3.5.

use crate::trees::tree_of;
use lua_scope::bind;
use std::process::Abort;
use std::test::Fail;

/// Scripts, and what is found in each, as a text: of each name the place of its local, or `g` for a
/// global; after `|` of each local `c` where it is a cell, else `s`; after each `/` the captures of
/// a function body.
const BINDINGS: [(&[u8], &[u8]); 16] = [
    (b"x = x", b"gg|/"),
    (b"local x = x", b"g|s/"),
    (b"local x = 1 local x = x", b"0|ss/"),
    (b"local a, b = 1 a, b, c = b, a, c", b"01g10g|ss/"),
    (b"do local x end x = 1", b"g|s/"),
    (b"local x do local x x = 1 end x = 2", b"10|ss/"),
    (b"repeat local x until x", b"0|s/"),
    (b"for i = i, i do i = i end", b"gg00|s/"),
    (b"for k, v in v, k do v = k end", b"gg10|ss/"),
    (b"local function f() return f end", b"0|c//0"),
    (b"local f = function() return f end", b"g|s//"),
    (
        b"local x, y f = function() return y, x, y end",
        b"g101|cc//10",
    ),
    (
        b"function f(a) return function() return a end end",
        b"g0|c///0",
    ),
    (
        b"local x f = function() local y return function() x = y end end",
        b"g01|cc//0/01",
    ),
    (b"function t:m(a) self.x = a end", b"g01|ss//"),
    (b"goto x local a ::x::", b"|s/"),
];

fn push_place(text: &mut Vec<u8>, place: Option<usize>) -> Result<(), Fail> {
    match place {
        Some(at) if at < 10 => text.push(b'0' + at as u8)?,
        Some(_) => text.push(b'?')?,
        None => text.push(b'g')?,
    }
    Ok(())
}

#[test]
fn names_of_scripts(rt: HostRuntime) -> Result<(), Fail> {
    for (script, wanted) in BINDINGS {
        let tree = tree_of(rt.alloc(), script)?;
        let found = bind(rt.alloc(), &tree).ok().ok_or("bindings")?;
        let mut text = Vec::new(rt.alloc());
        for name in found.names.as_slice() {
            push_place(&mut text, *name)?;
        }
        text.push(b'|')?;
        for captured in found.captured.as_slice() {
            text.push(if *captured { b'c' } else { b's' })?;
        }
        for captures in found.bodies.as_slice() {
            text.push(b'/')?;
            for at in captures.as_slice() {
                push_place(&mut text, Some(*at))?;
            }
        }
        assert_eq!(rt; text.as_slice(), wanted, "at {script:?}");
    }
    Ok(())
}
