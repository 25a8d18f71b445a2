//! The top call over sources and sinks in memory.
ghost use Rattle.std.specs.Prelude.{Some};

use lanes_program::{Finished, run_lanes, script_word};
use outside::{BytesIn, BytesOut, ReadFault, Source};
use std::alloc::{AllocError, Global};

const FIRST: &[u8] = b"local lanes = require \"lanes\" local l = lanes.linda()
l:send(\"k\", 42)
print(l:receive(\"k\"))
";

const TWO: &[u8] = b"local lanes = require \"lanes\" local l = lanes.linda()
l:send(\"k\", 007)
l:send(\"k\", \"a b\")
print(l:receive(\"k\"))
print(l:receive(\"k\"))";

const TWO_KEYS: &[u8] = b"local lanes = require \"lanes\" local l = lanes.linda()
l:send(\"a\", 1)
l:send(\"b\", 2)
l:send(\"a\", 3)
print(l:receive(\"b\"))
print(l:receive(\"a\"))
print(l:receive(\"a\"))
";

// The statement declares 201 locals: fifty on each line but the first and the last.
const LOCALS: &[u8] = b"local
a,a,a,a,a,a,a,a,a,a,a,a,a,a,a,a,a,a,a,a,a,a,a,a,a,a,a,a,a,a,a,a,a,a,a,a,a,a,a,a,a,a,a,a,a,a,a,a,a,a,
a,a,a,a,a,a,a,a,a,a,a,a,a,a,a,a,a,a,a,a,a,a,a,a,a,a,a,a,a,a,a,a,a,a,a,a,a,a,a,a,a,a,a,a,a,a,a,a,a,a,
a,a,a,a,a,a,a,a,a,a,a,a,a,a,a,a,a,a,a,a,a,a,a,a,a,a,a,a,a,a,a,a,a,a,a,a,a,a,a,a,a,a,a,a,a,a,a,a,a,a,
a,a,a,a,a,a,a,a,a,a,a,a,a,a,a,a,a,a,a,a,a,a,a,a,a,a,a,a,a,a,a,a,a,a,a,a,a,a,a,a,a,a,a,a,a,a,a,a,a,a,
a";

const NOT_BUILT: &[u8] = b"lanes: t.lua:2: not built yet\n";

struct Case {
    script: &'static [u8],
    // The calls of the input and of the output that fail; 0 is none.
    read: u64,
    write: u64,
    status: u8,
    output: &'static [u8],
    errors: &'static [u8],
}

const CASES: [Case; 33] = [
    Case {
        script: b"local t = {3, 1, 2} for i = 1, #t do print(i, t[i] * 2) end",
        read: 0,
        write: 0,
        status: 0,
        output: b"1\t6\n2\t2\n3\t4\n",
        errors: b"",
    },
    Case {
        script: b"print(1)\nlocal t = nil\nprint(t.x)",
        read: 0,
        write: 0,
        status: 1,
        output: b"1\n",
        errors: b"lanes: t.lua:3: attempt to index a nil value\n",
    },
    Case {
        script: b"error({})",
        read: 0,
        write: 0,
        status: 1,
        output: b"",
        errors: b"lanes: error object is a table value\n",
    },
    Case {
        script: FIRST,
        read: 0,
        write: 0,
        status: 0,
        output: b"k\t42\n",
        errors: b"",
    },
    Case {
        script: TWO,
        read: 0,
        write: 0,
        status: 0,
        output: b"k\t7\nk\ta b\n",
        errors: b"",
    },
    Case {
        script: TWO_KEYS,
        read: 0,
        write: 0,
        status: 0,
        output: b"b\t2\na\t1\na\t3\n",
        errors: b"",
    },
    Case {
        script: FIRST,
        read: 1,
        write: 0,
        status: 5,
        output: b"",
        errors: b"lanes: read fault\n",
    },
    Case {
        script: FIRST,
        read: 2,
        write: 0,
        status: 5,
        output: b"",
        errors: b"lanes: read fault\n",
    },
    Case {
        script: FIRST,
        read: 0,
        write: 1,
        status: 6,
        output: b"",
        errors: b"lanes: write fault\n",
    },
    Case {
        script: TWO,
        read: 0,
        write: 1,
        status: 6,
        output: b"",
        errors: b"lanes: write fault\n",
    },
    Case {
        script: TWO,
        read: 0,
        write: 2,
        status: 6,
        output: b"k\t7\n",
        errors: b"lanes: write fault\n",
    },
    Case {
        script: TWO_KEYS,
        read: 0,
        write: 1,
        status: 6,
        output: b"",
        errors: b"lanes: write fault\n",
    },
    Case {
        script: TWO_KEYS,
        read: 0,
        write: 2,
        status: 6,
        output: b"b\t2\n",
        errors: b"lanes: write fault\n",
    },
    Case {
        script: TWO_KEYS,
        read: 0,
        write: 3,
        status: 6,
        output: b"b\t2\na\t1\n",
        errors: b"lanes: write fault\n",
    },
    Case {
        script: b"local lanes = require \"lanes\" local l = lanes.linda()\nl:receive(\"k\")\n",
        read: 0,
        write: 0,
        status: 1,
        output: b"",
        errors: NOT_BUILT,
    },
    Case {
        script: b"local lanes = require \"lanes\" local l = lanes.linda()
print(l:receive(\"k\"))
l:send(\"k\", 1)
",
        read: 0,
        write: 0,
        status: 1,
        output: b"",
        errors: NOT_BUILT,
    },
    Case {
        script: b"local lanes = require \"lanes\" local l = lanes.linda()
l:send(\"k\", \"a_b\")
",
        read: 0,
        write: 0,
        status: 0,
        output: b"",
        errors: b"",
    },
    Case {
        script: b"",
        read: 0,
        write: 0,
        status: 0,
        output: b"",
        errors: b"",
    },
    Case {
        script: b"print(1.5)",
        read: 0,
        write: 0,
        status: 3,
        output: b"",
        errors: b"lanes: t.lua:1: float numeral\n",
    },
    Case {
        script: b"\r\nprint(\"abc",
        read: 0,
        write: 0,
        status: 3,
        output: b"",
        errors: b"lanes: t.lua:2: unfinished string\n",
    },
    Case {
        script: b"print(2/1)",
        read: 0,
        write: 0,
        status: 3,
        output: b"",
        errors: b"lanes: t.lua:1: float operator\n",
    },
    Case {
        script: b"local x =",
        read: 0,
        write: 0,
        status: 3,
        output: b"",
        errors: b"lanes: t.lua:1: unexpected end\n",
    },
    Case {
        script: b"x = = 1",
        read: 0,
        write: 0,
        status: 3,
        output: b"",
        errors: b"lanes: t.lua:1: unexpected '='\n",
    },
    Case {
        script: b"break",
        read: 0,
        write: 0,
        status: 3,
        output: b"",
        errors: b"lanes: t.lua:1: break outside a loop\n",
    },
    Case {
        script: b"local x <const> = 1\nf = function() x = 2 end",
        read: 0,
        write: 0,
        status: 3,
        output: b"",
        errors: b"lanes: t.lua:2: assignment to a constant\n",
    },
    Case {
        script: b"function f()\nreturn ... end",
        read: 0,
        write: 0,
        status: 3,
        output: b"",
        errors: b"lanes: t.lua:2: '...' outside a vararg function\n",
    },
    Case {
        script: LOCALS,
        read: 0,
        write: 0,
        status: 3,
        output: b"",
        errors: b"lanes: t.lua:6: too many local variables\n",
    },
    Case {
        script: b"local x <const>, _ENV = 1, 2",
        read: 0,
        write: 0,
        status: 3,
        output: b"",
        errors: b"lanes: t.lua:1: _ENV is not supported\n",
    },
    Case {
        script: b"break\nx = = 1",
        read: 0,
        write: 0,
        status: 3,
        output: b"",
        errors: b"lanes: t.lua:2: unexpected '='\n",
    },
    Case {
        script: b"\ngoto y",
        read: 0,
        write: 0,
        status: 3,
        output: b"",
        errors: b"lanes: t.lua:2: no visible label 'y'\n",
    },
    Case {
        script: b"::a::\n::a::",
        read: 0,
        write: 0,
        status: 3,
        output: b"",
        errors: b"lanes: t.lua:2: label 'a' already defined\n",
    },
    Case {
        script: b"goto x local a = 1 ::x:: print(a)",
        read: 0,
        write: 0,
        status: 3,
        output: b"",
        errors: b"lanes: t.lua:1: goto jumps into the scope of a local\n",
    },
    Case {
        script: b"local lanes = require \"lanes\" local l = lanes.linda()",
        read: 0,
        write: 0,
        status: 0,
        output: b"",
        errors: b"",
    },
];

fn run(alloc: Global, case: &Case) -> Result<(Finished<BytesOut>, BytesOut), AllocError> {
    let words = vec![in alloc; String::from_str(alloc, "t.lua")?]?;
    let mut input = BytesIn::new(case.script.to_vec(alloc)?, vec![in alloc; case.read]?);
    let output = BytesOut::new(alloc, vec![in alloc; case.write]?);
    let mut errors = BytesOut::new(alloc, Vec::new(alloc));
    let finished = run_lanes(alloc, &words, &mut input, output, &mut errors);
    Ok((finished, errors))
}

#[test]
fn runs_and_refuses(rt: HostRuntime) -> Result<(), AllocError> {
    let alloc = rt.alloc();
    for case in &CASES {
        let (finished, errors) = run(alloc, case)?;
        assert_eq!(rt; finished.status, case.status);
        assert_eq!(rt; errors.taken(), case.errors);
        match &finished.output {
            Some(output) => assert_eq!(rt; output.taken(), case.output),
            None => assert!(rt; false),
        }
    }
    Ok(())
}

// A source that gives one byte a read.
#[derive(Drop)]
struct Drip {
    inner: BytesIn,
}

impl Source for Drip {
    ghost left = { λ drip. Some drip.inner.left };

    ghost faults = { λ drip. drip.inner.faults };

    fn read(&mut self, into: &mut [u8]) -> Result<usize, ReadFault> {
        self.inner.read(&mut into[..1])
    }
}

#[test]
fn reads_byte_by_byte(rt: HostRuntime) -> Result<(), AllocError> {
    let alloc = rt.alloc();
    let words = vec![in alloc; String::from_str(alloc, "-")?]?;
    let mut input = Drip {
        inner: BytesIn::new(FIRST.to_vec(alloc)?, Vec::new(alloc)),
    };
    let output = BytesOut::new(alloc, Vec::new(alloc));
    let mut errors = BytesOut::new(alloc, Vec::new(alloc));
    let finished = run_lanes(alloc, &words, &mut input, output, &mut errors);
    assert_eq!(rt; finished.status, 0);
    match &finished.output {
        Some(output) => assert_eq!(rt; output.taken(), b"k\t42\n".as_slice()),
        None => assert!(rt; false),
    }
    Ok(())
}

#[test]
fn takes_one_word(rt: HostRuntime) -> Result<(), AllocError> {
    let alloc = rt.alloc();
    let mut words = Vec::new(alloc);
    assert!(rt; script_word(alloc, &words)?.is_none());
    words.push(String::from_str(alloc, "a.lua")?)?;
    match script_word(alloc, &words)? {
        Some(word) => assert_eq!(rt; word.as_str(), "a.lua"),
        None => assert!(rt; false),
    }
    words.push(String::from_str(alloc, "b.lua")?)?;
    assert!(rt; script_word(alloc, &words)?.is_none());
    let mut input = BytesIn::new(FIRST.to_vec(alloc)?, Vec::new(alloc));
    let output = BytesOut::new(alloc, Vec::new(alloc));
    let mut errors = BytesOut::new(alloc, Vec::new(alloc));
    let finished = run_lanes(alloc, &words, &mut input, output, &mut errors);
    assert_eq!(rt; finished.status, 2);
    assert_eq!(rt; errors.taken(), b"lanes: bad arguments\n".as_slice());
    Ok(())
}
