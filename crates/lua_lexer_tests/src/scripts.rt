//! What the rules say of scripts: expected values come from the manual and from the reference Lua.

use int_ops::text_of;
use lanes_arena::Bytes;
use lua_lexer::{LONGEST, LexFault, Lexeme, Place, Token, token_bytes, tokens};
use std::alloc::{AllocError, Global};
use std::process::Abort;
use std::test::Fail;

/// Between a script and its tokens.
const BAR: u8 = 0xfe;

/// Scripts, and after the bar their tokens.
const TOKENS_1: [&[u8]; 36] = [
    b"\xfeEnd ",
    b"x\xfeName:x End ",
    b"_A9 a_b\xfeName:_A9 Name:a_b End ",
    b"and break do else elseif\xfeWord:And Word:Break Word:Do Word:Else Word:Elseif End ",
    b"end false for function goto\xfeWord:End Word:False Word:For Word:Function Word:Goto End ",
    b"if in local nil not or\xfeWord:If Word:In Word:Local Word:Nil Word:Not Word:Or End ",
    b"repeat return then true until\xfeWord:Repeat Word:Return Word:Then Word:True Word:Until End ",
    b"while\xfeWord:While End ",
    b"ends And _and nil_ iff\xfeName:ends Name:And Name:_and Name:nil_ Name:iff End ",
    b"elseifx do1\xfeName:elseifx Name:do1 End ",
    b"x + - * / %\xfeName:x Sign:Plus Sign:Minus Sign:Star Sign:Slash Sign:Percent End ",
    b"^ # & ~ | <<\xfeSign:Caret Sign:Hash Sign:Amp Sign:Tilde Sign:Pipe Sign:ShiftLeft End ",
    b">> // == ~=\xfeSign:ShiftRight Sign:SlashSlash Sign:EqualEqual Sign:NotEqual End ",
    b"<= >= < > =\xfeSign:LessEqual Sign:GreaterEqual Sign:Less Sign:Greater Sign:Equal End ",
    b"( ) { }\xfeSign:OpenParen Sign:CloseParen Sign:OpenBrace Sign:CloseBrace End ",
    b"[ ] :: ;\xfeSign:OpenBracket Sign:CloseBracket Sign:ColonColon Sign:Semicolon End ",
    b": , . .. ...\xfeSign:Colon Sign:Comma Sign:Dot Sign:DotDot Sign:DotDotDot End ",
    b"+-*/\xfeSign:Plus Sign:Minus Sign:Star Sign:Slash End ",
    b"a>>b>c>=d\xfeName:a Sign:ShiftRight Name:b Sign:Greater Name:c Sign:GreaterEqual Name:d End ",
    b">>>\xfeSign:ShiftRight Sign:Greater End ",
    b">>=\xfeSign:ShiftRight Sign:Equal End ",
    b"<<<=\xfeSign:ShiftLeft Sign:LessEqual End ",
    b"<=>\xfeSign:LessEqual Sign:Greater End ",
    b"===\xfeSign:EqualEqual Sign:Equal End ",
    b"~=~\xfeSign:NotEqual Sign:Tilde End ",
    b"~~=\xfeSign:Tilde Sign:NotEqual End ",
    b"///\xfeSign:SlashSlash Sign:Slash End ",
    b":::\xfeSign:ColonColon Sign:Colon End ",
    b"....\xfeSign:DotDotDot Sign:Dot End ",
    b".....\xfeSign:DotDotDot Sign:DotDot End ",
    b"a..b\xfeName:a Sign:DotDot Name:b End ",
    b"a...b\xfeName:a Sign:DotDotDot Name:b End ",
    b"a.b\xfeName:a Sign:Dot Name:b End ",
    b"a.\xfeName:a Sign:Dot End ",
    b"[=\xfeSign:OpenBracket Sign:Equal End ",
    b"[==x\xfeSign:OpenBracket Sign:EqualEqual Name:x End ",
];

/// Scripts, and after the bar their tokens.
const TOKENS_2: [&[u8]; 25] = [
    b"[=x[\xfeSign:OpenBracket Sign:Equal Name:x Sign:OpenBracket End ",
    b"a[b]]\xfeName:a Sign:OpenBracket Name:b Sign:CloseBracket Sign:CloseBracket End ",
    b"]=]\xfeSign:CloseBracket Sign:Equal Sign:CloseBracket End ",
    b"- -\xfeSign:Minus Sign:Minus End ",
    b"0\xfeInt:0 End ",
    b"7\xfeInt:7 End ",
    b"00012\xfeInt:12 End ",
    b"9223372036854775807\xfeInt:9223372036854775807 End ",
    b"000000000000000000000009223372036854775807\xfeInt:9223372036854775807 End ",
    b"0x0\xfeInt:0 End ",
    b"0xff\xfeInt:255 End ",
    b"0XaBcD\xfeInt:43981 End ",
    b"0x7fffffffffffffff\xfeInt:9223372036854775807 End ",
    b"0xffffffffffffffff\xfeInt:-1 End ",
    b"0x8000000000000000\xfeInt:-9223372036854775808 End ",
    b"0x1ffffffffffffffff\xfeInt:-1 End ",
    b"0x10000000000000005\xfeInt:5 End ",
    b"0x1e\xfeInt:30 End ",
    b"0x1e+1\xfeInt:30 Sign:Plus Int:1 End ",
    b"0x1-1\xfeInt:1 Sign:Minus Int:1 End ",
    b"3-2\xfeInt:3 Sign:Minus Int:2 End ",
    b"3 .. 4\xfeInt:3 Sign:DotDot Int:4 End ",
    b"3==3\xfeInt:3 Sign:EqualEqual Int:3 End ",
    b"-5\xfeSign:Minus Int:5 End ",
    b"x1\xfeName:x1 End ",
];

/// Scripts, and after the bar their tokens.
const TOKENS_3: [&[u8]; 25] = [
    b"a .. 1\xfeName:a Sign:DotDot Int:1 End ",
    b"\"\"\xfeText: End ",
    b"''\xfeText: End ",
    b"\"a'b\"\xfeText:a'b End ",
    b"'a\"b'\xfeText:a\"b End ",
    b"\"--[[x]]\"\xfeText:--[[x]] End ",
    b"\"\\a\\b\\f\\n\\r\\t\\v\\\\\\\"\\'\"\xfeText:\x07\x08\x0c\n\r\t\x0b\\\"' End ",
    b"\"a\\\nb\"\xfeText:a\nb End ",
    b"\"a\\\r\nb\"\xfeText:a\nb End ",
    b"\"a\\\n\rb\"\xfeText:a\nb End ",
    b"\"a\\\rb\"\xfeText:a\nb End ",
    b"\"a\\z b\"\xfeText:ab End ",
    b"\"a\\z \t\n\r\x0b\x0c  b\"\xfeText:ab End ",
    b"\"a\\z\"\xfeText:a End ",
    b"\"\\x41\\x7a\\xFf\"\xfeText:Az\xff End ",
    b"\"\\0\\00\\000\"\xfeText:\x00\x00\x00 End ",
    b"\"\\65\\0651\\9z\"\xfeText:AA1\tz End ",
    b"\"\\255\"\xfeText:\xff End ",
    b"\"\\12345\"\xfeText:{45 End ",
    b"\"\\u{0}\"\xfeText:\x00 End ",
    b"\"\\u{7f}\\u{80}\"\xfeText:\x7f\xc2\x80 End ",
    b"\"\\u{7FF}\\u{800}\"\xfeText:\xdf\xbf\xe0\xa0\x80 End ",
    b"\"\\u{FFFF}\\u{10000}\"\xfeText:\xef\xbf\xbf\xf0\x90\x80\x80 End ",
    b"\"\\u{1FFFFF}\"\xfeText:\xf7\xbf\xbf\xbf End ",
    b"\"\\u{200000}\"\xfeText:\xf8\x88\x80\x80\x80 End ",
];

/// Scripts, and after the bar their tokens.
const TOKENS_4: [&[u8]; 25] = [
    b"\"\\u{3FFFFFF}\"\xfeText:\xfb\xbf\xbf\xbf\xbf End ",
    b"\"\\u{4000000}\"\xfeText:\xfc\x84\x80\x80\x80\x80 End ",
    b"\"\\u{7FFFFFFF}\"\xfeText:\xfd\xbf\xbf\xbf\xbf\xbf End ",
    b"\"\\u{000000000041}\"\xfeText:A End ",
    b"\"\\u{20ac}x\"\xfeText:\xe2\x82\xacx End ",
    b"\"\x00\x01\"\xfeText:\x00\x01 End ",
    b"\"\xe4\xf6\xff\"\xfeText:\xe4\xf6\xff End ",
    b"\"a\" 'b'\xfeText:a Text:b End ",
    b"f\"x\"\xfeName:f Text:x End ",
    b"[[]]\xfeText: End ",
    b"[[a]]\xfeText:a End ",
    b"[=[a]]b]=]\xfeText:a]]b End ",
    b"[==[a]=]b]]c]==]\xfeText:a]=]b]]c End ",
    b"[===[]==]]===]\xfeText:]==] End ",
    b"[[a]b]]\xfeText:a]b End ",
    b"[=[]]=]\xfeText:] End ",
    b"[[\na]]\xfeText:a End ",
    b"[[\r\na]]\xfeText:a End ",
    b"[[\n\ra]]\xfeText:a End ",
    b"[[\n\na]]\xfeText:\na End ",
    b"[[\r\ra]]\xfeText:\na End ",
    b"[[\n\r\na]]\xfeText:\na End ",
    b"[[a\r\nb\rc\n\rd\ne]]\xfeText:a\nb\nc\nd\ne End ",
    b"[[a\\n\"]]\xfeText:a\\n\" End ",
    b"[[[]]\xfeText:[ End ",
];

/// Scripts, and after the bar their tokens.
const TOKENS_5: [&[u8]; 21] = [
    b"[[\x00\xff]]\xfeText:\x00\xff End ",
    b"[=[a]=]]\xfeText:a Sign:CloseBracket End ",
    b"a[[b]]\xfeName:a Text:b End ",
    b" \t\n\r\x0b\x0cx\xfeName:x End ",
    b"--\xfeEnd ",
    b"-- x\ny\xfeName:y End ",
    b"-- x\ry\xfeName:y End ",
    b"--[ x\ny\xfeName:y End ",
    b"--[==\ny\xfeName:y End ",
    b"--[== [[\ny\xfeName:y End ",
    b"--[[a]]b\xfeName:b End ",
    b"--[=[a]]\n]=]b\xfeName:b End ",
    b"--[[a\nb]]--c\n--[==[]==]d\xfeName:d End ",
    b"a--b\xfeName:a End ",
    b"a-- b\n-c\xfeName:a Sign:Minus Name:c End ",
    b"--\xff\x00\nx\xfeName:x End ",
    b"#!/usr/bin/lua\nx\xfeName:x End ",
    b"#\xfeEnd ",
    b"# [[ \x00\"\rx\xfeName:x End ",
    b"x#y\xfeName:x Sign:Hash Name:y End ",
    b"\n#x\xfeSign:Hash Name:x End ",
];

/// Scripts and their faults, by number, with offset and line.
const FAULTS_1: [(&[u8], usize, u32, u32); 27] = [
    (b"$", 0, 0, 1),
    (b"x\n@", 0, 2, 2),
    (b"a !b", 0, 2, 1),
    (b"`", 0, 0, 1),
    (b"?", 0, 0, 1),
    (b"a\\", 0, 1, 1),
    (b"\x00", 0, 0, 1),
    (b"x\x00", 0, 1, 1),
    (b"\xe4", 0, 0, 1),
    (b"x = \xff", 0, 4, 1),
    (b"\x7f", 0, 0, 1),
    (b"\x1b", 0, 0, 1),
    (b"# first ?\n ?", 0, 11, 2),
    (b"3x", 1, 0, 1),
    (b"0x", 1, 0, 1),
    (b"0xg", 1, 0, 1),
    (b"1..2", 1, 0, 1),
    (b"1e", 1, 0, 1),
    (b"1e+", 1, 0, 1),
    (b"3e+x", 1, 0, 1),
    (b"1p4", 1, 0, 1),
    (b"0x1p", 1, 0, 1),
    (b"0x.p1", 1, 0, 1),
    (b"0x.", 1, 0, 1),
    (b"1.2.3", 1, 0, 1),
    (b"1_000", 1, 0, 1),
    (b"08y", 1, 0, 1),
];

/// Scripts and their faults, by number, with offset and line.
const FAULTS_2: [(&[u8], usize, u32, u32); 27] = [
    (b"1e5.5", 1, 0, 1),
    (b"0x1pf", 1, 0, 1),
    (b"x\r\n 0b1", 1, 4, 2),
    (b"1e1e1", 1, 0, 1),
    (b"1.5", 2, 0, 1),
    (b"print(1.5)", 2, 6, 1),
    (b".5", 2, 0, 1),
    (b"5.", 2, 0, 1),
    (b"1e5", 2, 0, 1),
    (b"1E-5", 2, 0, 1),
    (b"1.5e+3", 2, 0, 1),
    (b"0xA.8p1", 2, 0, 1),
    (b"0x.8", 2, 0, 1),
    (b"0xAp-3", 2, 0, 1),
    (b"0x8.", 2, 0, 1),
    (b"9223372036854775808", 2, 0, 1),
    (b"99999999999999999999999", 2, 0, 1),
    (b"a.5", 2, 1, 1),
    (b"a\n\r\n.5", 2, 4, 3),
    (b"\"\\q\"", 3, 1, 1),
    (b"\"a\\xg1\"", 3, 2, 1),
    (b"\"\\x1g\"", 3, 1, 1),
    (b"\"\\x1\"", 3, 1, 1),
    (b"\"\\256\"", 3, 1, 1),
    (b"\"\\999\"", 3, 1, 1),
    (b"\"\\u{80000000}\"", 3, 1, 1),
    (b"\"\\u{}\"", 3, 1, 1),
];

/// Scripts and their faults, by number, with offset and line.
const FAULTS_3: [(&[u8], usize, u32, u32); 25] = [
    (b"\"\\u41\"", 3, 1, 1),
    (b"\"\\u{41\"", 3, 1, 1),
    (b"\"\\u{4g}\"", 3, 1, 1),
    (b"\"\\u{100000000000000000041}\"", 3, 1, 1),
    (b"\"\\", 3, 1, 1),
    (b"'a\\\n\\!'", 3, 4, 2),
    (b"\"\\A\"", 3, 1, 1),
    (b"\"\\\x00\"", 3, 1, 1),
    (b"\"\\q\n", 3, 1, 1),
    (b"x = \"ok\" .. \"\\d\"", 3, 13, 1),
    (b"print(\"abc", 4, 6, 1),
    (b"\"", 4, 0, 1),
    (b"'a\"", 4, 0, 1),
    (b"\"a\n\"", 4, 0, 1),
    (b"\"a\r\"", 4, 0, 1),
    (b"\"\\z \n ", 4, 0, 1),
    (b"x\n \"a\\\nb\n", 4, 3, 2),
    (b"[[a", 4, 0, 1),
    (b"\n[==[ ]=]", 4, 1, 2),
    (b"[=[ ]] ]==]", 4, 0, 1),
    (b"[[]", 4, 0, 1),
    (b"--[[a", 5, 0, 1),
    (b"x\n--[==[ ]=]\n", 5, 2, 2),
    (b"--[=[]]--", 5, 0, 1),
    (b"-- a\r\n\n\r --[[", 5, 9, 3),
];

/// Scripts, and the offset and line of the token of a number.
const PLACES: [(&[u8], usize, u32, u32); 30] = [
    (b"", 0, 0, 1),
    (b"\n", 0, 1, 2),
    (b"\r\n", 0, 2, 2),
    (b"\n\r", 0, 2, 2),
    (b"\r\r", 0, 2, 3),
    (b"\n\n", 0, 2, 3),
    (b"\r\n\r", 0, 3, 3),
    (b"a b\nc", 0, 0, 1),
    (b"a b\nc", 1, 2, 1),
    (b"a b\nc", 2, 4, 2),
    (b"a b\nc", 3, 5, 2),
    (b"a\r\nb\rc\nd\n\re", 0, 0, 1),
    (b"a\r\nb\rc\nd\n\re", 1, 3, 2),
    (b"a\r\nb\rc\nd\n\re", 2, 5, 3),
    (b"a\r\nb\rc\nd\n\re", 3, 7, 4),
    (b"a\r\nb\rc\nd\n\re", 4, 10, 5),
    (b"a\r\nb\rc\nd\n\re", 5, 11, 5),
    (b"[[\n\r\n]] x", 0, 0, 1),
    (b"[[\n\r\n]] x", 1, 8, 3),
    (b"[[\n\r\n]] x", 2, 9, 3),
    (b"\"a\\\r\nb\\z \n\n c\" x", 0, 0, 1),
    (b"\"a\\\r\nb\\z \n\n c\" x", 1, 15, 4),
    (b"\"a\\\r\nb\\z \n\n c\" x", 2, 16, 4),
    (b"--[[\n\n]] x -- y\nz", 0, 9, 3),
    (b"--[[\n\n]] x -- y\nz", 1, 16, 4),
    (b"--[[\n\n]] x -- y\nz", 2, 17, 4),
    (b"#! x\r\ny", 0, 6, 2),
    (b"#! x\r\ny", 1, 7, 2),
    (b"#\n\n#", 0, 3, 3),
    (b"#\n\n#", 1, 4, 3),
];

fn put(alloc: Global, found: &mut Vec<u8>, what: &Lexeme) -> Result<(), AllocError> {
    match what {
        Lexeme::Name(name) => {
            found.extend_from_slice(b"Name:")?;
            found.extend_from_slice(name.as_slice())
        }
        Lexeme::Int(number) => {
            let text = text_of(alloc, *number)?;
            found.extend_from_slice(b"Int:")?;
            found.extend_from_slice(text.as_slice())
        }
        Lexeme::Text(text) => {
            found.extend_from_slice(b"Text:")?;
            found.extend_from_slice(text.as_slice())
        }
        Lexeme::Word(word) => {
            let text = format!(in alloc; "Word:{word:?}")?;
            found.extend_from_slice(text.as_bytes())
        }
        Lexeme::Sign(sign) => {
            let text = format!(in alloc; "Sign:{sign:?}")?;
            found.extend_from_slice(text.as_bytes())
        }
        Lexeme::End => found.extend_from_slice(b"End"),
    }
}

/// The tokens as a text, without their places.
fn shown(alloc: Global, tokens: &[Token]) -> Result<Vec<u8>, AllocError> {
    let mut found = Vec::new(alloc);
    for token in tokens {
        put(alloc, &mut found, &token.what)?;
        found.push(b' ')?;
    }
    Ok(found)
}

/// What stands before the bar, and what stands after it.
fn split_case(case: &[u8]) -> (&[u8], &[u8]) {
    for (at, byte) in case.iter().enumerate() {
        if *byte == BAR {
            let (script, wanted) = case.split_at(at);
            return match wanted {
                [_, wanted @ ..] => (script, wanted),
                [] => (script, wanted),
            };
        }
    }
    (case, case)
}

fn expect_tokens(rt: &impl Abort, alloc: Global, case: &[u8]) -> Result<(), Fail> {
    let (script, wanted) = split_case(case);
    let mut found = tokens(alloc, &Bytes::of(alloc, script)?)?;
    let text = shown(alloc, &found.take_block())?;
    assert_eq!(rt; text.as_slice(), wanted, "at {script:?}");
    Ok(())
}

fn place_of(fault: &LexFault) -> Option<Place> {
    match fault {
        LexFault::BadByte(place) => Some(*place),
        LexFault::BadNumeral(place) => Some(*place),
        LexFault::FloatNumeral(place) => Some(*place),
        LexFault::BadEscape(place) => Some(*place),
        LexFault::OpenString(place) => Some(*place),
        LexFault::OpenComment(place) => Some(*place),
        LexFault::TooLong => None,
        LexFault::Memory => None,
    }
}

fn fault_text(number: usize) -> &'static [u8] {
    match number {
        0 => b"unexpected byte",
        1 => b"malformed numeral",
        2 => b"float numeral",
        3 => b"invalid escape",
        4 => b"unfinished string",
        _ => b"unfinished comment",
    }
}

fn expect_fault(
    rt: &impl Abort,
    alloc: Global,
    script: &[u8],
    wanted: &[u8],
    place: Place,
) -> Result<(), Fail> {
    let text = Bytes::of(alloc, script)?;
    let fault = tokens(alloc, &text).err().ok_or("a fault")?;
    assert_eq!(rt; fault.text(), wanted, "at {script:?}");
    assert_eq!(rt; fault.line(), place.line, "at {script:?}");
    assert_eq!(rt; place_of(&fault), Some(place), "at {script:?}");
    Ok(())
}

fn expect_place(
    rt: &impl Abort,
    alloc: Global,
    script: &[u8],
    number: usize,
    wanted: Place,
) -> Result<(), Fail> {
    let mut found = tokens(alloc, &Bytes::of(alloc, script)?)?;
    let place = found.take_block().get(number).map(|token| token.place);
    assert_eq!(rt; place, Some(wanted), "at {script:?}");
    Ok(())
}

#[test]
fn tokens_of_scripts_1(rt: HostRuntime) -> Result<(), Fail> {
    for case in TOKENS_1 {
        expect_tokens(&rt, rt.alloc(), case)?;
    }
    Ok(())
}

#[test]
fn tokens_of_scripts_2(rt: HostRuntime) -> Result<(), Fail> {
    for case in TOKENS_2 {
        expect_tokens(&rt, rt.alloc(), case)?;
    }
    Ok(())
}

#[test]
fn tokens_of_scripts_3(rt: HostRuntime) -> Result<(), Fail> {
    for case in TOKENS_3 {
        expect_tokens(&rt, rt.alloc(), case)?;
    }
    Ok(())
}

#[test]
fn tokens_of_scripts_4(rt: HostRuntime) -> Result<(), Fail> {
    for case in TOKENS_4 {
        expect_tokens(&rt, rt.alloc(), case)?;
    }
    Ok(())
}

#[test]
fn tokens_of_scripts_5(rt: HostRuntime) -> Result<(), Fail> {
    for case in TOKENS_5 {
        expect_tokens(&rt, rt.alloc(), case)?;
    }
    Ok(())
}

#[test]
fn faults_of_scripts_1(rt: HostRuntime) -> Result<(), Fail> {
    for (script, wanted, at, line) in FAULTS_1 {
        expect_fault(
            &rt,
            rt.alloc(),
            script,
            fault_text(wanted),
            Place { at, line },
        )?;
    }
    Ok(())
}

#[test]
fn faults_of_scripts_2(rt: HostRuntime) -> Result<(), Fail> {
    for (script, wanted, at, line) in FAULTS_2 {
        expect_fault(
            &rt,
            rt.alloc(),
            script,
            fault_text(wanted),
            Place { at, line },
        )?;
    }
    Ok(())
}

#[test]
fn faults_of_scripts_3(rt: HostRuntime) -> Result<(), Fail> {
    for (script, wanted, at, line) in FAULTS_3 {
        expect_fault(
            &rt,
            rt.alloc(),
            script,
            fault_text(wanted),
            Place { at, line },
        )?;
    }
    Ok(())
}

#[test]
fn places_of_tokens(rt: HostRuntime) -> Result<(), Fail> {
    for (script, number, at, line) in PLACES {
        expect_place(&rt, rt.alloc(), script, number, Place { at, line })?;
    }
    Ok(())
}

#[test]
fn longest_script(rt: HostRuntime) -> Result<(), Fail> {
    let mut blanks = vec![in rt.alloc(); b' '; LONGEST]?;
    let longest = Bytes::of(rt.alloc(), &blanks)?;
    let mut found = tokens(rt.alloc(), &longest)?;
    assert_eq!(rt; found.take_block().len(), 1);
    blanks.push(b' ')?;
    let longer = Bytes::from_vec(blanks)?;
    assert_eq!(rt; tokens(rt.alloc(), &longer).err(), Some(LexFault::TooLong));
    Ok(())
}

#[test]
fn bytes_of_a_token(rt: HostRuntime) -> Result<(), Fail> {
    let script = Bytes::of(rt.alloc(), b"x = 0x1F")?;
    let number = token_bytes(rt.alloc(), &script, 4)?.ok_or("a token")?;
    assert_eq!(rt; number.as_slice(), b"0x1F".as_slice());
    assert!(rt; token_bytes(rt.alloc(), &script, 8)?.is_none());
    Ok(())
}
