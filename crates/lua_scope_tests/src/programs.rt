//! Programs of scripts: slots, captures and the targets of gotos.

use crate::trees::tree_of;
use lanes_arena::Bytes;
use lua_program::{Program, Proto, RExprKind, RStat, Ref, UpFrom};
use lua_scope::resolve;
use std::alloc::Global;
use std::process::Abort;
use std::test::Fail;

fn program_of(alloc: Global, script: &[u8]) -> Result<Program, Fail> {
    let tree = tree_of(alloc, script)?;
    let name = Bytes::of(alloc, b"t.lua")?;
    let program = resolve(alloc, tree, name).ok().ok_or("a program")?;
    Ok(program)
}

fn push_number(text: &mut Vec<u8>, number: usize) -> Result<(), Fail> {
    if number < 10 {
        text.push(b'0' + number as u8)?;
    } else {
        text.push(b'?')?;
    }
    Ok(())
}

fn push_ref(text: &mut Vec<u8>, r: &Ref) -> Result<(), Fail> {
    match r {
        Ref::Slot(slot) => {
            text.push(b's')?;
            push_number(text, *slot as usize)
        }
        Ref::CellSlot(slot) => {
            text.push(b'c')?;
            push_number(text, *slot as usize)
        }
        Ref::Up(at) => {
            text.push(b'u')?;
            push_number(text, *at as usize)
        }
        Ref::Global(name) => {
            text.extend_from_slice(name.get().bytes.as_slice())?;
            Ok(())
        }
    }
}

/// The statements of a body, not those inside blocks: of `local` and `local function` the locals,
/// of `return` the names among its values, of a goto how many blocks it leaves and its label's
/// number.
fn push_body(text: &mut Vec<u8>, proto: &Proto) -> Result<(), Fail> {
    push_number(text, proto.slots as usize)?;
    for up in proto.ups.as_slice() {
        match up {
            UpFrom::ParentCell(slot) => {
                text.push(b'c')?;
                push_number(text, *slot as usize)?;
            }
            UpFrom::ParentUp(at) => {
                text.push(b'u')?;
                push_number(text, *at as usize)?;
            }
        }
    }
    text.push(b':')?;
    for stat in proto.body.as_slice() {
        match stat {
            RStat::Local(locals, _) => {
                for local in locals.as_slice() {
                    push_ref(text, &local.0)?;
                }
            }
            RStat::LocalFunction(local, _) => push_ref(text, local)?,
            RStat::Return(values) => {
                text.push(b'r')?;
                for value in values.as_slice() {
                    if let RExprKind::Name(r, _) = &value.what {
                        push_ref(text, r)?;
                    }
                }
            }
            RStat::Goto(jump) => {
                text.push(b'g')?;
                push_number(text, jump.get().leaves as usize)?;
                push_number(text, jump.get().statement as usize)?;
            }
            RStat::Label(_) => text.push(b'l')?,
            _ => text.push(b'.')?,
        }
    }
    Ok(())
}

/// Scripts, and their function bodies as a text, each after a blank: how many slots it has and
/// where its captures are found, a colon, and its statements.
const PROGRAMS: [(&[u8], &[u8]); 9] = [
    (b"return x", b" 0:rx"),
    (b"local x return x", b" 1:s0rs0"),
    (b"local x local x, y return x, y, z", b" 3:s0s1s2rs1s2z"),
    (b"do local x end local y return y", b" 1:.s0rs0"),
    (
        b"local x local function f() return x, f end",
        b" 2:c0c1 0c0c1:ru0u1",
    ),
    (
        b"local x return function() return function() return x end end",
        b" 1:c0r 0c0:r 0u0:ru0",
    ),
    (b"goto a x = 1 ::a::", b" 0:g02.l"),
    (b"::a:: ::b:: goto b goto a", b" 0:llg01g00"),
    (
        b"::a:: return function() ::a:: ::b:: goto b end",
        b" 0:lr 0:llg01",
    ),
];

#[test]
fn bodies_of_scripts(rt: HostRuntime) -> Result<(), Fail> {
    for (script, wanted) in PROGRAMS {
        let program = program_of(rt.alloc(), script)?;
        let mut text = Vec::new(rt.alloc());
        for proto in program.protos.as_slice() {
            text.push(b' ')?;
            push_body(&mut text, proto)?;
        }
        assert_eq!(rt; text.as_slice(), wanted, "at {script:?}");
    }
    Ok(())
}

/// The goto in the first statement of a block, in the first statement of a script.
fn inner_goto(program: &Program) -> Option<(u32, u32)> {
    let main = program.protos.get(0)?;
    let inner = match main.body.as_slice().first()? {
        RStat::Do(inner) | RStat::While(_, inner) | RStat::Repeat(inner, _) => inner,
        _ => return None,
    };
    match inner.as_slice().first()? {
        RStat::Goto(jump) => Some((jump.get().leaves, jump.get().statement)),
        _ => None,
    }
}

#[test]
fn gotos_out_of_blocks(rt: HostRuntime) -> Result<(), Fail> {
    let cases: [(&[u8], u32, u32); 4] = [
        (b"do goto a end x = 1 ::a::", 1, 2),
        (b"while x do goto a y = 1 ::a:: end ::b::", 0, 2),
        (b"do goto a ::b:: ::a:: end ::a::", 0, 2),
        (b"repeat goto out until x ::out:: x = 1", 1, 1),
    ];
    for (script, leaves, statement) in cases {
        let program = program_of(rt.alloc(), script)?;
        assert_eq!(rt;
            inner_goto(&program),
            Some((leaves, statement)),
            "at {script:?}"
        );
    }
    Ok(())
}

#[test]
fn the_line_of_the_main_body(rt: HostRuntime) -> Result<(), Fail> {
    let program = program_of(rt.alloc(), b"\n\nfunction f() end")?;
    let main = program.protos.get(0).ok_or("a body")?;
    assert_eq!(rt; main.line, 1);
    let f = program.protos.get(1).ok_or("a body")?;
    assert_eq!(rt; f.line, 3);
    Ok(())
}
