//! A walk over a tree, which finds what its names refer to.
ghost use Rattle.std.specs.Prelude.{◌≡◌, map, true, false, IfOk, IfErr, OnOk};
ghost use Rattle.std.specs.Option.{option_map};
ghost use Rattle.lua_scope.specs.Labels.{outline_of};
ghost use Rattle.lua_scope.specs.Survey.{told, declared, ended};
ghost use Rattle.lua_scope.specs.Walk as spec;
ghost use Rattle.lua_scope.specs.Rules as rules;
ghost use Rattle.lua_scope.specs.Rules.{Tells, scope_of};

use crate::fault::ScopeFault;
use crate::scopes::BlockScope;
use crate::survey::{Stopped, Survey};
use lanes_arena::Bytes;
use lua_tokens::Place;
use lua_tree::{Block, Body, Branch, Expr, ExprKind, Field, Pair, Stat, Tree};
use sqlite_items::Boxed;
use std::alloc::Global;

fn announce_all(survey: &mut Survey, names: &[(Bytes, Place)]) -> Result<(), Stopped>
    ensures fault { Tells (rules.all_declared 0 names.now (scope_of survey.old))
        (told result survey.new) }
    ensures same { OnOk result (survey.new ≡ survey.old) }
{
    let mut before = 0;
    for name in names {
        survey.announce(&name.0, name.1, before)?;
        before += 1;
    }
    Ok(())
}

fn declare_all(survey: &mut Survey, names: &[(Bytes, Place)]) -> Result<(), Stopped>
    ensures found { OnOk result (survey.new ≡ spec.all_declared names.now survey.old) }
    ensures fault { IfErr (told result survey.new) (λ fault. fault ≡ ScopeFault.Memory) }
    ensures scope { OnOk result (scope_of survey.new
        ≡ rules.with_names (map rules.variable names.now) (scope_of survey.old)) }
{
    for name in names {
        survey.declare(&name.0, false)?;
    }
    Ok(())
}

fn announce_locals(survey: &mut Survey, names: &[(Bytes, bool, Place)]) -> Result<(), Stopped>
    ensures fault { Tells (rules.locals_declared 0 names.now (scope_of survey.old))
        (told result survey.new) }
    ensures same { OnOk result (survey.new ≡ survey.old) }
{
    let mut before = 0;
    for name in names {
        survey.announce(&name.0, name.2, before)?;
        before += 1;
    }
    Ok(())
}

fn declare_locals(survey: &mut Survey, names: &[(Bytes, bool, Place)]) -> Result<(), Stopped>
    ensures found { OnOk result (survey.new ≡ spec.locals_declared names.now survey.old) }
    ensures fault { IfErr (told result survey.new) (λ fault. fault ≡ ScopeFault.Memory) }
    ensures scope { OnOk result (scope_of survey.new
        ≡ rules.with_names (map rules.local names.now) (scope_of survey.old)) }
{
    for name in names {
        survey.declare(&name.0, name.1)?;
    }
    Ok(())
}

/// An expression, which may be a target of an assignment.
#[cycle(walk)]
fn expr(alloc: Global, survey: &mut Survey, e: &Expr, is_target: bool) -> Result<(), Stopped>
    ensures found { OnOk result (survey.new ≡ spec.in_expr e.now survey.old) }
    ensures fault { Tells (rules.expr_faults e.now is_target (scope_of survey.old))
        (told result survey.new) }
    ensures scope { OnOk result (scope_of survey.new ≡ scope_of survey.old) }
{
    match &e.what {
        ExprKind::Nil | ExprKind::True | ExprKind::False | ExprKind::Int(_) | ExprKind::Text(_) =>
            Ok(()),
        ExprKind::Dots(place) => survey.dots(*place),
        ExprKind::Name(name, place) => survey.mention(name, *place, is_target),
        ExprKind::Index(two) | ExprKind::Binary(_, two) | ExprKind::And(two) | ExprKind::Or(two) =>
            pair(alloc, survey, two.get()),
        ExprKind::Call(a, arguments) => {
            expr(alloc, survey, a.get(), false)?;
            exprs(alloc, survey, arguments.get().as_slice(), false)
        }
        ExprKind::Method(a, _, arguments) => {
            expr(alloc, survey, a.get(), false)?;
            exprs(alloc, survey, arguments.get().as_slice(), false)
        }
        ExprKind::Function(function) => body(alloc, survey, function.get()),
        ExprKind::Unary(_, a) | ExprKind::Paren(a) => expr(alloc, survey, a.get(), false),
        ExprKind::Table(all) => fields(alloc, survey, all.as_slice()),
    }
}

#[cycle(walk)]
fn pair(alloc: Global, survey: &mut Survey, two: &Pair) -> Result<(), Stopped>
    ensures found { OnOk result (survey.new ≡ spec.in_pair two.now survey.old) }
    ensures fault { Tells (rules.pair_faults two.now (scope_of survey.old))
        (told result survey.new) }
    ensures scope { OnOk result (scope_of survey.new ≡ scope_of survey.old) }
{
    expr(alloc, survey, &two.left, false)?;
    expr(alloc, survey, &two.right, false)
}

#[cycle(walk)]
fn exprs(alloc: Global, survey: &mut Survey, all: &[Expr], are_targets: bool) -> Result<(), Stopped>
    ensures found { OnOk result (survey.new ≡ spec.each (map spec.in_expr all.now) survey.old) }
    ensures fault { Tells (rules.each_of are_targets (map rules.expr_faults all.now)
        (scope_of survey.old)) (told result survey.new) }
    ensures scope { OnOk result (scope_of survey.new ≡ scope_of survey.old) }
{
    for e in all {
        expr(alloc, survey, e, are_targets)?;
    }
    Ok(())
}

#[cycle(walk)]
fn fields(alloc: Global, survey: &mut Survey, all: &[Field]) -> Result<(), Stopped>
    ensures found { OnOk result (survey.new ≡ spec.each (map spec.in_field all.now) survey.old) }
    ensures fault { Tells (rules.each (map rules.field_faults all.now) (scope_of survey.old))
        (told result survey.new) }
    ensures scope { OnOk result (scope_of survey.new ≡ scope_of survey.old) }
{
    for field in all {
        match field {
            Field::Item(e) | Field::Named(_, e) => expr(alloc, survey, e, false)?,
            Field::Keyed(key, e) => {
                expr(alloc, survey, key, false)?;
                expr(alloc, survey, e, false)?;
            }
        }
    }
    Ok(())
}

/// The statements of a block that is open, without its end.
#[cycle(walk)]
fn stats(alloc: Global, survey: &mut Survey, all: &[Stat]) -> Result<(), Stopped>
    ensures found { OnOk result (survey.new
        ≡ spec.each (map (λ x. x.what) (map spec.in_stat all.now)) survey.old) }
    ensures fault { Tells ((rules.stats (map (λ x. x.what) (map rules.stat_part all.now))).faults
        (scope_of survey.old)) (told result survey.new) }
    ensures scope { OnOk result (scope_of survey.new
        ≡ (rules.stats (map (λ x. x.what) (map rules.stat_part all.now))).after
        (scope_of survey.old)) }
{
    for s in all {
        stat(alloc, survey, s)?;
    }
    Ok(())
}

/// A block, without its end.
#[cycle(walk)]
fn block(alloc: Global, survey: &mut Survey, b: &Block, is_repeat: bool) -> Result<(), Stopped>
    ensures found { OnOk result (survey.new ≡ spec.in_block b.now is_repeat survey.old) }
    ensures fault { Tells ((rules.block_part b.now is_repeat).faults (scope_of survey.old))
        (told result survey.new) }
    ensures scope { OnOk result (scope_of survey.new
        ≡ (rules.block_part b.now is_repeat).after (scope_of survey.old)) }
{
    let all = b.stats.as_slice();
    survey.open(alloc, all, is_repeat)?;
    stats(alloc, survey, all)
}

#[cycle(walk)]
fn nested(alloc: Global, survey: &mut Survey, b: &Block) -> Result<(), Stopped>
    ensures found { OnOk result (survey.new ≡ spec.nested (spec.in_block b.now false) survey.old) }
    ensures fault { Tells ((rules.block_part b.now false).faults (scope_of survey.old))
        (told result survey.new) }
    ensures scope { OnOk result (scope_of survey.new ≡ scope_of survey.old) }
{
    let begun = survey.begin();
    block(alloc, survey, b, false)?;
    survey.end(begun);
    Ok(())
}

/// A block that may be left out.
#[cycle(walk)]
fn nested_if(alloc: Global, survey: &mut Survey, b: &Option<Block>) -> Result<(), Stopped>
    ensures found { OnOk result (survey.new
        ≡ spec.nested_if (option_map spec.in_block b.now) survey.old) }
    ensures fault { Tells (rules.or_none (option_map rules.block_part b.now) (scope_of survey.old))
        (told result survey.new) }
    ensures scope { OnOk result (scope_of survey.new ≡ scope_of survey.old) }
{
    match b {
        Some(b) => nested(alloc, survey, b),
        None => Ok(()),
    }
}

/// The body of a loop with these variables.
#[cycle(walk)]
fn looped(
    alloc: Global,
    survey: &mut Survey,
    b: &Block,
    variables: &[(Bytes, Place)],
) -> Result<(), Stopped>
    ensures found { OnOk result (survey.new
        ≡ spec.looped (spec.then (spec.all_declared variables.now) (spec.in_block b.now false))
        survey.old) }
    ensures fault { Tells ((rules.block_part b.now false).faults
        (rules.with_names (map rules.variable variables.now)
        (rules.looping (scope_of survey.old)))) (told result survey.new) }
    ensures scope { OnOk result (scope_of survey.new ≡ scope_of survey.old) }
{
    let begun = survey.begin();
    survey.enter_loop();
    declare_all(survey, variables)?;
    block(alloc, survey, b, false)?;
    survey.end(begun);
    Ok(())
}

/// The body of a loop with this variable.
#[cycle(walk)]
fn counted(alloc: Global, survey: &mut Survey, b: &Block, name: &Bytes) -> Result<(), Stopped>
    ensures found { OnOk result (survey.new
        ≡ spec.looped (spec.then (declared name.now false) (spec.in_block b.now false))
        survey.old) }
    ensures fault { Tells ((rules.block_part b.now false).faults
        (rules.with_name (name.now, false) (rules.looping (scope_of survey.old))))
        (told result survey.new) }
    ensures scope { OnOk result (scope_of survey.new ≡ scope_of survey.old) }
{
    let begun = survey.begin();
    survey.enter_loop();
    survey.declare(name, false)?;
    block(alloc, survey, b, false)?;
    survey.end(begun);
    Ok(())
}

#[cycle(walk)]
fn branches(alloc: Global, survey: &mut Survey, all: &[Branch]) -> Result<(), Stopped>
    ensures found { OnOk result (survey.new ≡ spec.each (map spec.in_branch all.now) survey.old) }
    ensures fault { Tells (rules.each (map rules.branch_faults all.now) (scope_of survey.old))
        (told result survey.new) }
    ensures scope { OnOk result (scope_of survey.new ≡ scope_of survey.old) }
{
    for branch in all {
        expr(alloc, survey, &branch.condition, false)?;
        nested(alloc, survey, &branch.block)?;
    }
    Ok(())
}

#[cycle(walk)]
fn body(alloc: Global, survey: &mut Survey, b: &Body) -> Result<(), Stopped>
    ensures found { OnOk result (survey.new ≡ spec.in_body b.now survey.old) }
    ensures fault { Tells (rules.body_faults b.now (scope_of survey.old)) (told result survey.new) }
    ensures scope { OnOk result (scope_of survey.new ≡ scope_of survey.old) }
{
    let outer = survey.enter(alloc, b.vararg)?;
    announce_all(survey, b.params.as_slice())?;
    declare_all(survey, b.params.as_slice())?;
    block(alloc, survey, &b.block, false)?;
    survey.exit(outer)?;
    Ok(())
}

#[cycle(walk)]
fn local(
    alloc: Global,
    survey: &mut Survey,
    names: &[(Bytes, bool, Place)],
    values: &[Expr],
) -> Result<(), Stopped>
    ensures found { OnOk result (survey.new
        ≡ spec.locals_declared names.now (spec.each (map spec.in_expr values.now) survey.old)) }
    ensures fault { Tells (rules.both (rules.locals_declared 0 names.now)
        (rules.each_of false (map rules.expr_faults values.now)) (scope_of survey.old))
        (told result survey.new) }
    ensures scope { OnOk result (scope_of survey.new
        ≡ rules.with_names (map rules.local names.now) (scope_of survey.old)) }
{
    announce_locals(survey, names)?;
    exprs(alloc, survey, values, false)?;
    declare_locals(survey, names)
}

#[cycle(walk)]
fn local_function(
    alloc: Global,
    survey: &mut Survey,
    name: &Bytes,
    place: Place,
    function: &Body,
) -> Result<(), Stopped>
    ensures found { OnOk result (survey.new
        ≡ spec.in_body function.now (declared name.now false survey.old)) }
    ensures fault { Tells (rules.or_next (rules.declared name.now place 0 (scope_of survey.old))
        (rules.body_faults function.now (rules.with_name (name.now, false) (scope_of survey.old))))
        (told result survey.new) }
    ensures scope { OnOk result (scope_of survey.new
        ≡ rules.with_name (name.now, false) (scope_of survey.old)) }
{
    survey.announce(name, place, 0)?;
    survey.declare(name, false)?;
    body(alloc, survey, function)
}

/// The condition of a `repeat`, with which its block ends.
#[cycle(walk)]
fn until(alloc: Global, survey: &mut Survey, e: &Expr, begun: BlockScope) -> Result<(), Stopped>
    ensures found { OnOk result (survey.new ≡ ended begun (spec.in_expr e.now survey.old)) }
    ensures fault { Tells (rules.expr_faults e.now false (scope_of survey.old))
        (told result survey.new) }
    ensures scope { OnOk result (scope_of survey.new ≡ scope_of (ended begun survey.old)) }
{
    expr(alloc, survey, e, false)?;
    survey.end(begun);
    Ok(())
}

/// The step of a loop over numbers, if it is given.
#[cycle(walk)]
fn step(alloc: Global, survey: &mut Survey, by: &Option<Boxed<Expr>>) -> Result<(), Stopped>
    ensures found { OnOk result (survey.new
        ≡ spec.perhaps (option_map spec.in_expr by.now) survey.old) }
    ensures fault { Tells (rules.perhaps (option_map rules.expr_faults by.now)
        (scope_of survey.old)) (told result survey.new) }
    ensures scope { OnOk result (scope_of survey.new ≡ scope_of survey.old) }
{
    match by {
        Some(by) => expr(alloc, survey, by.get(), false),
        None => Ok(()),
    }
}

#[cycle(walk)]
fn stat(alloc: Global, survey: &mut Survey, s: &Stat) -> Result<(), Stopped>
    ensures found { OnOk result (survey.new ≡ (spec.in_stat s.now).what survey.old) }
    ensures fault { Tells ((rules.stat_part s.now).what.faults (scope_of survey.old))
        (told result survey.new) }
    ensures scope { OnOk result (scope_of survey.new
        ≡ (rules.stat_part s.now).what.after (scope_of survey.old)) }
{
    match s {
        Stat::Local(names, values) => { local(alloc, survey, names.as_slice(), values.as_slice()) }
        Stat::Assign(targets, values) => {
            exprs(alloc, survey, targets.as_slice(), true)?;
            exprs(alloc, survey, values.as_slice(), false)
        }
        Stat::Call(e) => expr(alloc, survey, e, false),
        Stat::Do(b) => nested(alloc, survey, b),
        Stat::While(e, b) => {
            expr(alloc, survey, e, false)?;
            looped(alloc, survey, b, &[])
        }
        Stat::Repeat(b, e) => {
            let begun = survey.begin();
            survey.enter_loop();
            block(alloc, survey, b, true)?;
            until(alloc, survey, e, begun)
        }
        Stat::If(all, otherwise) => {
            branches(alloc, survey, all.as_slice())?;
            nested_if(alloc, survey, otherwise)
        }
        Stat::ForNum(name, place, from, to, by, b) => {
            survey.announce(name, *place, 0)?;
            expr(alloc, survey, from.get(), false)?;
            expr(alloc, survey, to.get(), false)?;
            step(alloc, survey, by)?;
            counted(alloc, survey, b, name)
        }
        Stat::ForIn(names, values, b) => {
            announce_all(survey, names.as_slice())?;
            exprs(alloc, survey, values.as_slice(), false)?;
            looped(alloc, survey, b, names.as_slice())
        }
        Stat::LocalFunction(name, place, function) => {
            local_function(alloc, survey, name, *place, function)
        }
        Stat::Return(values) => exprs(alloc, survey, values.as_slice(), false),
        Stat::Break(place) => survey.leave(*place),
        Stat::Goto(name, place) => survey.jump(name, *place),
        Stat::Label(name, place) => survey.pass(name, *place),
    }
}

/// What is found in a script, or the first rule that it breaks.
pub fn survey(alloc: Global, tree: &Tree) -> Result<Survey, ScopeFault>
    ensures found { IfOk result (λ found. found ≡ spec.in_tree tree.now) }
    ensures fault { Tells (rules.broken tree.now) result }
{
    let mut survey = Survey::new(alloc)?;
    match block(alloc, &mut survey, &tree.block, false) {
        Ok(()) => Ok(survey),
        Err(Stopped) => Err(survey.fault),
    }
}
