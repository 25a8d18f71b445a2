//! Faults of scope. What is wanted comes from the manual's rules, sections 3.3.4, 3.3.7 and 3.5.

use crate::trees::tree_of;
use lua_scope::{ScopeFault, bind};
use std::process::Abort;
use std::test::Fail;

/// Scripts, and the line and the text of the first fault in each.
const FAULTS: [(&[u8], u32, &[u8]); 10] = [
    (
        b"local c <const> = 1\nc = 2",
        2,
        b"assignment to a constant",
    ),
    (b"\nbreak", 2, b"break outside a loop"),
    (
        b"function f()\nreturn ... end",
        2,
        b"'...' outside a vararg function",
    ),
    (b"x = 1\n_ENV = 2", 2, b"_ENV is not supported"),
    (b"\ngoto y", 2, b"no visible label 'y'"),
    (b"::a::\n::a::", 2, b"label 'a' already defined"),
    (
        b"goto x local a = 1 ::x:: print(a)",
        1,
        b"goto jumps into the scope of a local",
    ),
    (
        b"::a:: x = function()\ngoto a end",
        2,
        b"no visible label 'a'",
    ),
    (b"break goto y", 1, b"break outside a loop"),
    (b"goto y break", 1, b"no visible label 'y'"),
];

#[test]
fn faults_of_scope(rt: HostRuntime) -> Result<(), Fail> {
    for (script, line, wanted) in FAULTS {
        let tree = tree_of(rt.alloc(), script)?;
        let fault = bind(rt.alloc(), &tree).err().ok_or("a fault")?;
        let mut text = Vec::new(rt.alloc());
        fault.push_text(&mut text)?;
        assert_eq!(rt; text.as_slice(), wanted, "at {script:?}");
        assert_eq!(rt; fault.line(), line, "at {script:?}");
    }
    Ok(())
}

#[test]
fn want_of_memory_has_no_line(rt: HostRuntime) -> Result<(), Fail> {
    let mut text = Vec::new(rt.alloc());
    ScopeFault::Memory.push_text(&mut text)?;
    assert_eq!(rt; text.as_slice(), b"not enough memory".as_slice());
    assert_eq!(rt; ScopeFault::Memory.line(), 0);
    Ok(())
}
