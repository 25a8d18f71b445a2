//! Nodes of expressions beside their depth.

ghost use Rattle.std.specs.Prelude.{◌≡◌, ◌<◌, ◌+◌, IfOk};
ghost use Rattle.lua_grammar.specs.Erasure.{node};
ghost use Rattle.lua_grammar.specs.Expressions as spec;
ghost use Rattle.lua_parser.specs.Operators.{op};

use crate::operator::Operator;
use lanes_arena::{Bytes, Row};
use lua_grammar::{Arguments, Measured};
use lua_tokens::Place;
use lua_tree::{Body, Expr, ExprKind, Field, Pair, Unary};
use sqlite_items::Boxed;
use std::alloc::{AllocError, Global};

/// A node without parts.
pub fn leaf(what: ExprKind, place: Place) -> Measured<Expr>
    ensures { result ≡ spec.measured (node what place) 1 }
{
    Measured::new(
        Expr {
            what,
            line: place.line,
        },
        1,
    )
}

/// A node of this depth, whose parts lie one below.
fn above(what: ExprKind, place: Place, depth: usize) -> Measured<Expr>
    requires { depth < 1000 }
    ensures { result ≡ spec.measured (node what place) (depth + 1) }
{
    Measured::new(
        Expr {
            what,
            line: place.line,
        },
        depth + 1,
    )
}

pub fn name_leaf(name: Bytes, place: Place) -> Measured<Expr>
    ensures { result ≡ spec.name_leaf name place }
{
    leaf(ExprKind::Name(name, place), place)
}

pub fn grouped(
    alloc: Global,
    place: Place,
    inner: Measured<Expr>,
) -> Result<Measured<Expr>, AllocError>
    requires { inner.depth < 1000 }
    ensures { IfOk result (λ e. e ≡ spec.grouped place inner) }
{
    let (what, depth) = inner.into_parts();
    Ok(above(ExprKind::Paren(Boxed::new(alloc, what)?), place, depth))
}

/// An index that is written with a dot at the first place, and a name at the second.
pub fn dotted(
    alloc: Global,
    object: Measured<Expr>,
    place: Place,
    name: Bytes,
    name_place: Place,
) -> Result<Measured<Expr>, AllocError>
    requires { object.depth < 1000 }
    ensures { IfOk result (λ e. e ≡ spec.dotted object place name name_place) }
{
    let (what, depth) = object.into_parts();
    let key = leaf(ExprKind::Text(name), name_place);
    let pair = Pair {
        left: what,
        right: key.into_what(),
    };
    Ok(above(ExprKind::Index(Boxed::new(alloc, pair)?), place, depth))
}

/// An index that is written with a bracket at this place.
pub fn indexed(
    alloc: Global,
    object: Measured<Expr>,
    place: Place,
    key: Measured<Expr>,
) -> Result<Measured<Expr>, AllocError>
    requires object { object.depth < 1000 }
    requires key { key.depth < 1000 }
    ensures { IfOk result (λ e. e ≡ spec.indexed object place key) }
{
    let depth = object.depth.max(key.depth);
    let pair = Pair {
        left: object.into_what(),
        right: key.into_what(),
    };
    Ok(above(ExprKind::Index(Boxed::new(alloc, pair)?), place, depth))
}

pub fn called(
    alloc: Global,
    function: Measured<Expr>,
    arguments: Arguments,
) -> Result<Measured<Expr>, AllocError>
    requires function { function.depth < 1000 }
    requires arguments { arguments.exprs.depth < 1000 }
    ensures { IfOk result (λ e. e ≡ spec.called function arguments) }
{
    let Arguments { exprs, place } = arguments;
    let depth = function.depth.max(exprs.depth);
    let kind = ExprKind::Call(
        Boxed::new(alloc, function.into_what())?,
        Boxed::new(alloc, exprs.into_what())?,
    );
    Ok(above(kind, place, depth))
}

pub fn method_called(
    alloc: Global,
    object: Measured<Expr>,
    name: Bytes,
    arguments: Arguments,
) -> Result<Measured<Expr>, AllocError>
    requires object { object.depth < 1000 }
    requires arguments { arguments.exprs.depth < 1000 }
    ensures { IfOk result (λ e. e ≡ spec.method_called object name arguments) }
{
    let Arguments { exprs, place } = arguments;
    let depth = object.depth.max(exprs.depth);
    let kind = ExprKind::Method(
        Boxed::new(alloc, object.into_what())?,
        Boxed::new(alloc, name)?,
        Boxed::new(alloc, exprs.into_what())?,
    );
    Ok(above(kind, place, depth))
}

pub fn unary_node(
    alloc: Global,
    operator: Unary,
    place: Place,
    inner: Measured<Expr>,
) -> Result<Measured<Expr>, AllocError>
    requires { inner.depth < 1000 }
    ensures { IfOk result (λ e. e ≡ spec.unary_node operator place inner) }
{
    let (what, depth) = inner.into_parts();
    let kind = ExprKind::Unary(operator, Boxed::new(alloc, what)?);
    Ok(above(kind, place, depth))
}

pub fn binary_node(
    alloc: Global,
    operator: Operator,
    place: Place,
    left: Measured<Expr>,
    right: Measured<Expr>,
) -> Result<Measured<Expr>, AllocError>
    requires left { left.depth < 1000 }
    requires right { right.depth < 1000 }
    ensures { IfOk result (λ e. e ≡ spec.binary_node (op operator) place left right) }
{
    let depth = left.depth.max(right.depth);
    let pair = Pair {
        left: left.into_what(),
        right: right.into_what(),
    };
    let parts = Boxed::new(alloc, pair)?;
    match operator {
        Operator::Or => Ok(above(ExprKind::Or(parts), place, depth)),
        Operator::And => Ok(above(ExprKind::And(parts), place, depth)),
        Operator::Plain(plain) => Ok(above(ExprKind::Binary(plain, parts), place, depth)),
    }
}

/// A function whose word `function` is at this place.
pub fn function_node(
    alloc: Global,
    place: Place,
    body: Measured<Body>,
) -> Result<Measured<Expr>, AllocError>
    requires { body.depth < 1000 }
    ensures { IfOk result (λ e. e ≡ spec.function_node place body) }
{
    let (what, depth) = body.into_parts();
    Ok(above(ExprKind::Function(Boxed::new(alloc, what)?), place, depth))
}

pub fn table_node(place: Place, fields: Measured<Row<Field>>) -> Measured<Expr>
    requires { fields.depth < 1000 }
    ensures { result ≡ spec.table_node place fields }
{
    let (what, depth) = fields.into_parts();
    above(ExprKind::Table(what), place, depth)
}
