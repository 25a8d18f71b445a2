//! Trees of scripts, with the lines and places in them. What is wanted comes from the manual's
//! rules, section 3.

use crate::shown::text_of;
use crate::tokens::tokens_of;
use lua_parser::parse;
use std::process::Abort;
use std::test::Fail;

/// Scripts with a blank after each token, and their trees, each part before its own
/// parts: after a colon stands a line, after `@` the number of a token, and of a list how many
/// there are.
const TREES: [(&[u8], &[u8]); 45] = [
    // ---- precedence
    (b"x = 1 + 2 * 3 ", b"set1,1 x:1 Add:1 1:1 Mul:1 2:1 3:1 "),
    (b"x = 1 * 2 + 3 ", b"set1,1 x:1 Add:1 Mul:1 1:1 2:1 3:1 "),
    (b"x = a - b - c ", b"set1,1 x:1 Sub:1 Sub:1 a:1 b:1 c:1 "),
    (
        b"x = a .. b .. c ",
        b"set1,1 x:1 Concat:1 a:1 Concat:1 b:1 c:1 ",
    ),
    (b"x = - a .. b ", b"set1,1 x:1 Concat:1 Neg:1 a:1 b:1 "),
    (b"x = not a == b ", b"set1,1 x:1 Eq:1 Not:1 a:1 b:1 "),
    (b"x = a or b and c ", b"set1,1 x:1 or:1 a:1 and:1 b:1 c:1 "),
    (b"x = a and b or c ", b"set1,1 x:1 or:1 and:1 a:1 b:1 c:1 "),
    (b"x = a < b == c ", b"set1,1 x:1 Eq:1 Lt:1 a:1 b:1 c:1 "),
    (
        b"x = a | b ~ c & d << e ",
        b"set1,1 x:1 BitOr:1 a:1 BitXor:1 b:1 BitAnd:1 c:1 ShiftLeft:1 d:1 e:1 ",
    ),
    (
        b"x = a >> b & c ~ d | e ",
        b"set1,1 x:1 BitOr:1 BitXor:1 BitAnd:1 ShiftRight:1 a:1 b:1 c:1 d:1 e:1 ",
    ),
    (
        b"x = 2 + 3 * 4 .. 'y ",
        b"set1,1 x:1 Concat:1 Add:1 2:1 Mul:1 3:1 4:1 'y:1 ",
    ),
    (
        b"x = a // b % c * d ",
        b"set1,1 x:1 Mul:1 Mod:1 FloorDiv:1 a:1 b:1 c:1 d:1 ",
    ),
    (
        b"x = # ~ a ~= b ",
        b"set1,1 x:1 Ne:1 Len:1 BitNot:1 a:1 b:1 ",
    ),
    (
        b"x = a > b ~= c <= d >= e ",
        b"set1,1 x:1 Ge:1 Le:1 Ne:1 Gt:1 a:1 b:1 c:1 d:1 e:1 ",
    ),
    // ---- what can be called, and parentheses
    (
        b"a . b : c 'x . d [ 2 ] ( ) ",
        b"run call0:1 index:1 index:1 method-c1:1 index:1 a:1 'b:1 'x:1 'd:1 2:1 ",
    ),
    (
        b"a . d { 1 } [ 2 ] ( ) ",
        b"run call0:1 index:1 call1:1 index:1 a:1 'd:1 table1:1 item 1:1 2:1 ",
    ),
    (b"f\n( x ) ", b"run call1:2 f:1 x:2 "),
    (
        b"local x ( f ) ( ) ",
        b"local1,0 x@1 run call0:1 paren:1 f:1 ",
    ),
    (b"x = ( f ( ) ) ", b"set1,1 x:1 paren:1 call0:1 f:1 "),
    (
        b"( a ) . b = f { } 'y ",
        b"set1,1 index:1 paren:1 a:1 'b:1 call1:1 call1:1 f:1 table0:1 'y:1 ",
    ),
    (
        b"a , b [ 1 ] = ... , nil , true , false ",
        b"set2,4 a:1 index:1 b:1 1:1 dots@7:1 nil:1 true:1 false:1 ",
    ),
    // ---- statements
    (
        b"; local x < const > , y = 1 ; ; ",
        b"local2,1 const-x@2 y@7 1:1 ",
    ),
    (b"do break end do end ", b"do block1 break@1 do block0 "),
    (b"while x do break end ", b"while x:1 block1 break@3 "),
    (
        b"repeat local x until x ",
        b"repeat block1 local1,0 x@2 x:1 ",
    ),
    (
        b"if a then f ( ) elseif b then elseif c then else g ( ) end ",
        b"if3-else a:1 block1 run call0:1 f:1 b:1 block0 c:1 block0 block1 run call0:1 g:1 ",
    ),
    (b"if a then end ", b"if1 a:1 block0 "),
    (b"for i = 1 , 2 do end ", b"for-i@1 1:1 2:1 block0 "),
    (
        b"for i = 1 , 2 , 3 do end ",
        b"for-i@1-step 1:1 2:1 3:1 block0 ",
    ),
    (
        b"for k , v in f , s do end ",
        b"forin2,2 k@1 v@3 f:1 s:1 block0 ",
    ),
    (b"return a , b ; ", b"return2 a:1 b:1 "),
    (b"return ", b"return0 "),
    // ---- jumps
    (b"goto a :: a :: goto a ", b"goto-a@1 label-a@3 goto-a@6 "),
    (b":: a :: ; :: b :: ", b"label-a@1 label-b@5 "),
    (
        b"do goto a ( f ) ( ) end ",
        b"do block2 goto-a@2 run call0:1 paren:1 f:1 ",
    ),
    (
        b"repeat goto a :: a :: until x ",
        b"repeat block2 goto-a@2 label-a@4 x:1 ",
    ),
    // ---- functions
    (
        b"local function f ( a , ... ) return a end ",
        b"localfunction-f@2 body1...:1 a@4 block1 return1 a:1 ",
    ),
    (
        b"function a . b : c ( d ) end ",
        b"set1,1 index:1 index:1 a:1 'b:1 'c:1 function:1 body2:1 self@5 d@7 block0 ",
    ),
    (
        b"x =\nfunction ( )\nend ",
        b"set1,1 x:1 function:2 body0:2 block0 ",
    ),
    // ---- fields
    (
        b"x = { 1 , a = 2 ; [ b ] = 3 , } ",
        b"set1,1 x:1 table3:1 item 1:1 named-a 2:1 keyed b:1 3:1 ",
    ),
    (
        b"x = { a , a == b } ",
        b"set1,1 x:1 table2:1 item a:1 item Eq:1 a:1 b:1 ",
    ),
    // ---- lines
    (b"x =\n1\n+\n2 ", b"set1,1 x:1 Add:3 1:2 2:4 "),
    (
        b"x = a\n.\nb\n[\n1 ]\n: m\n'y ",
        b"set1,1 x:1 method-m1:7 index:4 index:2 a:1 'b:3 1:5 'y:7 ",
    ),
    (
        b"function a\n.\nb\n:\nc ( ) end ",
        b"set1,1 index:4 index:2 a:1 'b:3 'c:5 function:1 body1:1 self@5 block0 ",
    ),
];

#[test]
fn trees_of_scripts(rt: HostRuntime) -> Result<(), Fail> {
    for (script, wanted) in TREES {
        let tokens = tokens_of(rt.alloc(), script)?;
        let tree = parse(rt.alloc(), tokens).ok().ok_or("a tree")?;
        let text = text_of(rt.alloc(), &tree)?;
        assert_eq!(rt; text.as_slice(), wanted, "at {script:?}");
    }
    Ok(())
}
