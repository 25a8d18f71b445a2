//! A walk over a tree, which turns it into its program. Each node is taken apart and dropped, so
//! that the program takes its memory.
ghost use Rattle.std.specs.Prelude.{◌≡◌, map, false, true, IfOk};
ghost use Rattle.std.specs.Option.{option_map};
ghost use Rattle.lua_scope.specs.Build.{Makes};
ghost use Rattle.lua_scope.specs.Resolved as spec;

use crate::binding::Bindings;
use crate::build::{BlockFrame, Builder, small, ups_of};
use crate::kept::Kept;
use lanes_arena::{Bytes, Row};
use lua_program::{Program, Proto, RBranch, RExpr, RExprKind, RField, RPair, RStat, Ref, Spot};
use lua_tokens::Place;
use lua_tree::{Block, Body, Branch, Expr, ExprKind, Field, Pair, Stat, Tree};
use sqlite_items::Boxed;
use std::alloc::{AllocError, Global};

#[tactic(auto, using(crate::proofs::BuildLemmas::list_rules))]
fn variables(
    alloc: Global,
    found: &Bindings,
    builder: &mut Builder,
    names: &[(Bytes, Place)],
) -> Result<Row<Ref>, AllocError>
    ensures { Makes (spec.variables found.now names.now builder.old) result builder.new }
{
    let mut refs = Row::of(Vec::with_capacity(alloc, names.len())?);
    for _name in names {
        refs.push(builder.declare(found)?)?;
    }
    Ok(refs)
}

#[tactic(auto, using(crate::proofs::BuildLemmas::list_rules))]
fn cells(
    alloc: Global,
    found: &Bindings,
    builder: &mut Builder,
    names: &[(Bytes, Place)],
) -> Result<Row<bool>, AllocError>
    ensures { Makes (spec.cells found.now names.now builder.old) result builder.new }
{
    let mut cells = Row::of(Vec::with_capacity(alloc, names.len())?);
    for _name in names {
        let local = builder.declare(found)?;
        cells.push(local.is_cell())?;
    }
    Ok(cells)
}

#[tactic(auto, using(crate::proofs::BuildLemmas::list_rules))]
fn locals(
    alloc: Global,
    found: &Bindings,
    builder: &mut Builder,
    names: &[(Bytes, bool, Place)],
) -> Result<Row<(Ref, bool)>, AllocError>
    ensures { Makes (spec.locals found.now names.now builder.old) result builder.new }
{
    let mut refs = Row::of(Vec::with_capacity(alloc, names.len())?);
    for name in names {
        refs.push((builder.declare(found)?, name.1))?;
    }
    Ok(refs)
}

/// A body ends, with its parameters and statements.
fn finished(
    alloc: Global,
    found: &Bindings,
    builder: &mut Builder,
    block: BlockFrame,
    cells: Row<bool>,
    vararg: bool,
    body: Row<RStat>,
    line: u32,
) -> Result<u32, AllocError>
    ensures { Makes (spec.finished found.now block cells vararg body line builder.old)
        result builder.new }
{
    let params = small(cells.as_slice().len())?;
    let slots = small(builder.frame.slots)?;
    let ups = ups_of(alloc, found, block.function, builder.frame.body)?;
    builder.exit(
        block,
        Proto {
            params,
            cells,
            vararg,
            slots,
            ups,
            body,
            line,
        },
    )
}

#[cycle(lower)]
fn expr(
    alloc: Global,
    found: &Bindings,
    builder: &mut Builder,
    e: Expr,
) -> Result<RExpr, AllocError>
    ensures { Makes (spec.expr_of found.now e builder.old) result builder.new }
{
    let Expr { what, line } = e;
    let what = kind(alloc, found, builder, what)?;
    Ok(RExpr { what, line })
}

fn text(builder: &mut Builder, bytes: Bytes) -> Result<RExprKind, AllocError>
    ensures { Makes (spec.text_made bytes builder.old) result builder.new }
{
    let place = builder.text(&bytes)?;
    Ok(RExprKind::Text(bytes, place))
}

fn name(
    alloc: Global,
    found: &Bindings,
    builder: &mut Builder,
    name: Bytes,
    place: Place,
) -> Result<RExprKind, AllocError>
    ensures { Makes (spec.name_made found.now name place builder.old) result builder.new }
{
    let r = builder.name(alloc, found, name)?;
    Ok(RExprKind::Name(r, place))
}

/// A call of a function that is built.
#[cycle(lower)]
fn called(
    alloc: Global,
    found: &Bindings,
    builder: &mut Builder,
    all: Boxed<Row<Expr>>,
    e: Boxed<RExpr>,
) -> Result<RExprKind, AllocError>
    ensures { Makes (spec.called found.now e (map (spec.expr_of found.now) all) builder.old)
        result builder.new }
{
    let all = arguments(alloc, found, builder, all)?;
    Ok(RExprKind::Call(e, all))
}

/// A call of a method of an object that is built.
#[cycle(lower)]
fn method(
    alloc: Global,
    found: &Bindings,
    builder: &mut Builder,
    all: Boxed<Row<Expr>>,
    e: Boxed<RExpr>,
    name: Boxed<Bytes>,
) -> Result<RExprKind, AllocError>
    ensures { Makes (spec.method found.now e name (map (spec.expr_of found.now) all) builder.old)
        result builder.new }
{
    let name = builder.placed(alloc, name.into_inner())?;
    let all = arguments(alloc, found, builder, all)?;
    Ok(RExprKind::Method(e, name, all))
}

#[cycle(lower)]
fn kind(
    alloc: Global,
    found: &Bindings,
    builder: &mut Builder,
    what: ExprKind,
) -> Result<RExprKind, AllocError>
    ensures { Makes (spec.kind_of found.now what builder.old) result builder.new }
{
    match what {
        ExprKind::Nil => Ok(RExprKind::Nil),
        ExprKind::True => Ok(RExprKind::True),
        ExprKind::False => Ok(RExprKind::False),
        ExprKind::Int(n) => Ok(RExprKind::Int(n)),
        ExprKind::Text(bytes) => text(builder, bytes),
        ExprKind::Dots(place) => Ok(RExprKind::Dots(place)),
        ExprKind::Name(n, place) => name(alloc, found, builder, n, place),
        ExprKind::Index(two) => pair(alloc, found, builder, two).map(RExprKind::Index),
        ExprKind::Call(e, all) => {
            let e = boxed(alloc, found, builder, e)?;
            called(alloc, found, builder, all, e)
        }
        ExprKind::Method(e, name, all) => {
            let e = boxed(alloc, found, builder, e)?;
            method(alloc, found, builder, all, e, name)
        }
        ExprKind::Function(function) => {
            body(alloc, found, builder, function.into_inner()).map(RExprKind::Function)
        }
        ExprKind::Binary(op, two) => {
            let two = pair(alloc, found, builder, two)?;
            Ok(RExprKind::Binary(op, two))
        }
        ExprKind::Unary(op, a) => {
            let a = boxed(alloc, found, builder, a)?;
            Ok(RExprKind::Unary(op, a))
        }
        ExprKind::And(two) => pair(alloc, found, builder, two).map(RExprKind::And),
        ExprKind::Or(two) => pair(alloc, found, builder, two).map(RExprKind::Or),
        ExprKind::Paren(a) => boxed(alloc, found, builder, a).map(RExprKind::Paren),
        ExprKind::Table(all) => fields(alloc, found, builder, all).map(RExprKind::Table),
    }
}

#[cycle(lower)]
fn boxed(
    alloc: Global,
    found: &Bindings,
    builder: &mut Builder,
    e: Boxed<Expr>,
) -> Result<Boxed<RExpr>, AllocError>
    ensures { Makes (spec.expr_of found.now e builder.old) result builder.new }
{
    let e = expr(alloc, found, builder, e.into_inner())?;
    Boxed::new(alloc, e)
}

#[cycle(lower)]
fn pair(
    alloc: Global,
    found: &Bindings,
    builder: &mut Builder,
    two: Boxed<Pair>,
) -> Result<Boxed<RPair>, AllocError>
    ensures { Makes (spec.pair_of found.now two builder.old) result builder.new }
{
    let Pair { left, right } = two.into_inner();
    let right = Kept::new(right);
    let left = Kept::new(expr(alloc, found, builder, left)?);
    let right = expr(alloc, found, builder, right.into_inner())?;
    let left = left.into_inner();
    Boxed::new(alloc, RPair { left, right })
}

#[cycle(lower)]
fn arguments(
    alloc: Global,
    found: &Bindings,
    builder: &mut Builder,
    all: Boxed<Row<Expr>>,
) -> Result<Boxed<Row<RExpr>>, AllocError>
    ensures { Makes (spec.all (map (spec.expr_of found.now) all) builder.old) result builder.new }
{
    let all = exprs(alloc, found, builder, all.into_inner())?;
    Boxed::new(alloc, all)
}

#[cycle(lower)]
#[tactic(auto, using(crate::proofs::BuildLemmas::list_rules))]
fn exprs(
    alloc: Global,
    found: &Bindings,
    builder: &mut Builder,
    all: Row<Expr>,
) -> Result<Row<RExpr>, AllocError>
    ensures { Makes (spec.all (map (spec.expr_of found.now) all) builder.old) result builder.new }
{
    let all = all.into_vec();
    let mut made = Row::of(Vec::with_capacity(alloc, all.len())?);
    for e in all {
        made.push(expr(alloc, found, builder, e)?)?;
    }
    Ok(made)
}

#[cycle(lower)]
#[tactic(auto, using(crate::proofs::BuildLemmas::list_rules))]
fn fields(
    alloc: Global,
    found: &Bindings,
    builder: &mut Builder,
    all: Row<Field>,
) -> Result<Row<RField>, AllocError>
    ensures { Makes (spec.all (map (spec.field_of found.now) all) builder.old) result builder.new }
{
    let all = all.into_vec();
    let mut made = Row::of(Vec::with_capacity(alloc, all.len())?);
    for f in all {
        made.push(field(alloc, found, builder, f)?)?;
    }
    Ok(made)
}

#[cycle(lower)]
fn field(
    alloc: Global,
    found: &Bindings,
    builder: &mut Builder,
    f: Field,
) -> Result<RField, AllocError>
    ensures { Makes (spec.field_of found.now f builder.old) result builder.new }
{
    match f {
        Field::Item(e) => {
            let e = expr(alloc, found, builder, e)?;
            Ok(RField::Item(e))
        }
        Field::Named(name, e) => {
            let place = builder.text(&name)?;
            let e = expr(alloc, found, builder, e)?;
            Ok(RField::Named(name, place, e))
        }
        Field::Keyed(key, e) => {
            let e = Kept::new(e);
            let key = Kept::new(expr(alloc, found, builder, key)?);
            let e = expr(alloc, found, builder, e.into_inner())?;
            Ok(RField::Keyed(key.into_inner(), e))
        }
    }
}

/// The statements of a block that is open, without its end.
#[cycle(lower)]
#[tactic(auto, using(crate::proofs::BuildLemmas::list_rules))]
fn stats(
    alloc: Global,
    found: &Bindings,
    builder: &mut Builder,
    all: Row<Stat>,
) -> Result<Row<RStat>, AllocError>
    ensures { Makes (spec.all (map (λ x. x.what) (map (spec.stat_of found.now) all)) builder.old)
        result builder.new }
{
    let all = all.into_vec();
    let mut made = Row::of(Vec::with_capacity(alloc, all.len())?);
    for s in all {
        made.push(stat(alloc, found, builder, s)?)?;
    }
    Ok(made)
}

/// A block, without its end.
#[cycle(lower)]
fn block(
    alloc: Global,
    found: &Bindings,
    builder: &mut Builder,
    b: Block,
    is_repeat: bool,
) -> Result<Row<RStat>, AllocError>
    ensures { Makes (spec.block_of found.now b is_repeat builder.old) result builder.new }
{
    let Block { stats: all } = b;
    builder.open(alloc, all.as_slice(), is_repeat)?;
    stats(alloc, found, builder, all)
}

#[cycle(lower)]
fn nested(
    alloc: Global,
    found: &Bindings,
    builder: &mut Builder,
    b: Block,
) -> Result<Row<RStat>, AllocError>
    ensures { Makes (spec.nested (spec.block_of found.now b false) builder.old) result builder.new }
{
    let begun = builder.begin();
    let made = block(alloc, found, builder, b, false)?;
    builder.end(begun);
    Ok(made)
}

#[cycle(lower)]
#[tactic(auto, using(crate::proofs::BuildLemmas::list_rules))]
fn branches(
    alloc: Global,
    found: &Bindings,
    builder: &mut Builder,
    all: Row<Branch>,
) -> Result<Row<RBranch>, AllocError>
    ensures { Makes (spec.all (map (spec.branch_of found.now) all) builder.old) result builder.new }
{
    let all = all.into_vec();
    let mut made = Row::of(Vec::with_capacity(alloc, all.len())?);
    for b in all {
        made.push(branch(alloc, found, builder, b)?)?;
    }
    Ok(made)
}

#[cycle(lower)]
fn branch(
    alloc: Global,
    found: &Bindings,
    builder: &mut Builder,
    b: Branch,
) -> Result<RBranch, AllocError>
    ensures { Makes (spec.branch_of found.now b builder.old) result builder.new }
{
    let Branch { condition, block } = b;
    let condition = Kept::new(expr(alloc, found, builder, condition)?);
    let block = nested(alloc, found, builder, block)?;
    let condition = condition.into_inner();
    Ok(RBranch { condition, block })
}

#[cycle(lower)]
fn body(alloc: Global, found: &Bindings, builder: &mut Builder, b: Body) -> Result<u32, AllocError>
    ensures { Makes (spec.body_of found.now b builder.old) result builder.new }
{
    let Body {
        params,
        vararg,
        block: inner,
        line,
    } = b;
    let begun = builder.enter(alloc)?;
    let cells = cells(alloc, found, builder, params.as_slice())?;
    let made = block(alloc, found, builder, inner, false)?;
    finished(alloc, found, builder, begun, cells, vararg, made, line)
}

/// A loop over numbers, once its start, limit and step are built.
#[cycle(lower)]
fn counted(
    alloc: Global,
    found: &Bindings,
    builder: &mut Builder,
    b: Block,
) -> Result<(Ref, Row<RStat>), AllocError>
    ensures { Makes (spec.counted found.now (spec.block_of found.now b false) builder.old) result
        builder.new }
{
    let begun = builder.begin();
    let r = builder.declare(found)?;
    let made = block(alloc, found, builder, b, false)?;
    builder.end(begun);
    Ok((r, made))
}

#[cycle(lower)]
fn local(
    alloc: Global,
    found: &Bindings,
    builder: &mut Builder,
    values: Row<Expr>,
    names: Row<(Bytes, bool, Place)>,
) -> Result<RStat, AllocError>
    ensures { Makes (spec.local_made found.now names (map (spec.expr_of found.now) values)
        builder.old) result builder.new }
{
    let values = exprs(alloc, found, builder, values)?;
    let refs = locals(alloc, found, builder, names.as_slice())?;
    Ok(RStat::Local(refs, values))
}

#[cycle(lower)]
fn local_function(
    alloc: Global,
    found: &Bindings,
    builder: &mut Builder,
    function: Body,
) -> Result<RStat, AllocError>
    ensures { Makes (spec.local_function found.now (spec.body_of found.now function) builder.old)
        result builder.new }
{
    let r = builder.declare(found)?;
    let number = body(alloc, found, builder, function)?;
    Ok(RStat::LocalFunction(r, number))
}

/// The body of a `while` loop whose condition is built.
#[cycle(lower)]
fn while_body(
    alloc: Global,
    found: &Bindings,
    builder: &mut Builder,
    b: Block,
    e: Kept<RExpr>,
) -> Result<RStat, AllocError>
    ensures { Makes (spec.while_body found.now e.part (spec.block_of found.now b) builder.old)
        result builder.new }
{
    let made = nested(alloc, found, builder, b)?;
    Ok(RStat::While(e.into_inner(), made))
}

/// The condition of a `repeat` loop whose body is built.
#[cycle(lower)]
fn until(
    alloc: Global,
    found: &Bindings,
    builder: &mut Builder,
    e: Expr,
    begun: BlockFrame,
    made: Row<RStat>,
) -> Result<RStat, AllocError>
    ensures { Makes (spec.until found.now begun made (spec.expr_of found.now e) builder.old)
        result builder.new }
{
    let e = expr(alloc, found, builder, e)?;
    builder.end(begun);
    Ok(RStat::Repeat(made, e))
}

/// The block of `else`, if there is one, after the branches of an `if`.
#[cycle(lower)]
fn last_branch(
    alloc: Global,
    found: &Bindings,
    builder: &mut Builder,
    otherwise: Option<Block>,
    all: Row<RBranch>,
) -> Result<RStat, AllocError>
    ensures { Makes (spec.last_branch found.now all
        (option_map (spec.block_of found.now) otherwise) builder.old) result builder.new }
{
    match otherwise {
        Some(b) => {
            let made = nested(alloc, found, builder, b)?;
            Ok(RStat::If(all, Some(made)))
        }
        None => Ok(RStat::If(all, None)),
    }
}

/// The body of a loop over numbers whose start, limit and step are built.
#[cycle(lower)]
fn number_body(
    alloc: Global,
    found: &Bindings,
    builder: &mut Builder,
    b: Block,
    from: Boxed<RExpr>,
    to: Boxed<RExpr>,
    by: Option<Boxed<RExpr>>,
) -> Result<RStat, AllocError>
    ensures { Makes (spec.number_body found.now from to by (spec.block_of found.now b)
        builder.old) result builder.new }
{
    let (r, made) = counted(alloc, found, builder, b)?;
    Ok(RStat::ForNum(r, from, to, by, made))
}

/// The body of a loop over the values of an iterator.
#[cycle(lower)]
fn iterator_body(
    alloc: Global,
    found: &Bindings,
    builder: &mut Builder,
    b: Block,
    names: Row<(Bytes, Place)>,
    values: Row<RExpr>,
) -> Result<RStat, AllocError>
    ensures { Makes (spec.iterator_body found.now names values (spec.block_of found.now b)
        builder.old) result builder.new }
{
    let begun = builder.begin();
    let refs = variables(alloc, found, builder, names.as_slice())?;
    let made = block(alloc, found, builder, b, false)?;
    builder.end(begun);
    Ok(RStat::ForIn(refs, values, made))
}

fn goto(
    alloc: Global,
    builder: &mut Builder,
    name: Bytes,
    place: Place,
) -> Result<RStat, AllocError>
    ensures { Makes (spec.jump_made name place builder.old) result builder.new }
{
    let jump = builder.jump(name, place)?;
    Ok(RStat::Goto(Boxed::new(alloc, jump)?))
}

#[cycle(lower)]
fn stat(
    alloc: Global,
    found: &Bindings,
    builder: &mut Builder,
    s: Stat,
) -> Result<RStat, AllocError>
    ensures { Makes ((spec.stat_of found.now s).what builder.old) result builder.new }
{
    match s {
        Stat::Local(names, values) => local(alloc, found, builder, values, names),
        Stat::Assign(targets, values) => {
            let targets = exprs(alloc, found, builder, targets)?;
            let values = exprs(alloc, found, builder, values)?;
            Ok(RStat::Assign(targets, values))
        }
        Stat::Call(e) => expr(alloc, found, builder, e).map(RStat::Call),
        Stat::Do(b) => nested(alloc, found, builder, b).map(RStat::Do),
        Stat::While(e, b) => {
            let e = expr(alloc, found, builder, e)?;
            while_body(alloc, found, builder, b, Kept::new(e))
        }
        Stat::Repeat(b, e) => {
            let e = Kept::new(e);
            let begun = builder.begin();
            let made = block(alloc, found, builder, b, true)?;
            until(alloc, found, builder, e.into_inner(), begun, made)
        }
        Stat::If(all, otherwise) => {
            let all = branches(alloc, found, builder, all)?;
            last_branch(alloc, found, builder, otherwise, all)
        }
        Stat::ForNum(_, _, from, to, by, b) => {
            let from = boxed(alloc, found, builder, from)?;
            let to = boxed(alloc, found, builder, to)?;
            match by {
                Some(by) => {
                    let by = boxed(alloc, found, builder, by)?;
                    number_body(alloc, found, builder, b, from, to, Some(by))
                }
                None => number_body(alloc, found, builder, b, from, to, None),
            }
        }
        Stat::ForIn(names, values, b) => {
            let values = exprs(alloc, found, builder, values)?;
            iterator_body(alloc, found, builder, b, names, values)
        }
        Stat::LocalFunction(_, _, function) => { local_function(alloc, found, builder, function) }
        Stat::Return(values) => exprs(alloc, found, builder, values).map(RStat::Return),
        Stat::Break(place) => Ok(RStat::Break(place)),
        Stat::Goto(name, place) => goto(alloc, builder, name, place),
        Stat::Label(name, place) => { Boxed::new(alloc, Spot { name, place }).map(RStat::Label) }
    }
}

fn main_body(
    alloc: Global,
    found: &Bindings,
    builder: &mut Builder,
    tree: Tree,
) -> Result<u32, AllocError>
    ensures { Makes (spec.main_of found.now tree builder.old) result builder.new }
{
    let begun = builder.enter(alloc)?;
    let made = block(alloc, found, builder, tree.block, false)?;
    let cells = Row::new(alloc);
    finished(alloc, found, builder, begun, cells, true, made, 1)
}

/// The program of a script of this name, in whose tree the walk before has found no broken rule.
pub fn program(
    alloc: Global,
    found: &Bindings,
    tree: Tree,
    name: Bytes,
) -> Result<Program, AllocError>
    ensures { IfOk result (λ program. program ≡ spec.program_of found.now name tree) }
{
    let mut builder = Builder::new(alloc);
    main_body(alloc, found, &mut builder, tree)?;
    let Builder { protos, texts, .. } = builder;
    Ok(Program {
        name,
        texts: texts.into_list(alloc)?,
        protos,
    })
}
