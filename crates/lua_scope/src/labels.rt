//! The labels of the open blocks, and where a goto goes.
ghost use Rattle.std.specs.Prelude.{◌≡◌, ◌+◌, ◌++◌, map, IfOk, OnOk};
ghost use Rattle.lua_scope.specs.Labels as spec;
ghost use Rattle.lua_scope.specs.Labels.{outline_of};

use lanes_arena::Bytes;
use lua_tree::Stat;
use sqlite_items::Items;
use std::alloc::{AllocError, Global};

/// A label of a block: its name, the number of its statement in the block, from 0, and how many
/// locals are visible at it.
#[derive(Drop)]
pub struct Label {
    pub name: Bytes,
    pub statement: usize,
    pub visible: usize,
}

/// A block that is open at a place: how many locals are visible where it begins, and all its
/// labels.
#[derive(Drop)]
pub struct OpenBlock {
    pub start: usize,
    pub labels: Items<Label>,
}

/// Where a goto goes: how many blocks it leaves, the number of the label's statement in the block
/// that it comes to, and whether a local is visible there that isn't visible at the goto.
#[derive(Clone, Copy)]
pub struct Target {
    pub leaves: usize,
    pub statement: usize,
    pub into_local: bool,
}

fn is_label(s: &Stat) -> bool
    ensures { result ≡ spec.is_label (outline_of s.now) }
{
    matches!(s, Stat::Label(_, _))
}

/// How many statements come before the labels with which a block ends.
#[tactic(auto, using(crate::proofs::LabelLemmas::plain_rules))]
fn before_last_labels(all: &[Stat]) -> usize
    ensures { result ≡ spec.before_last_labels (map outline_of all.now) }
{
    let mut count = all.len();
    while count > 0 {
        if !is_label(&all[count - 1]) {
            return count;
        }
        count -= 1;
    }
    0
}

/// Adds the label that a statement is, if it is one, and answers how many locals are visible after
/// it.
fn note(
    labels: &mut Items<Label>,
    s: &Stat,
    statement: usize,
    visible: usize,
    counted: usize,
) -> Result<usize, AllocError>
    ensures visible { IfOk result (λ after. after ≡ counted + (outline_of s.now).declares) }
    ensures labels { OnOk result (labels.new
        ≡ labels.old ++ spec.noted (outline_of s.now).label statement visible) }
{
    match s {
        Stat::Local(names, _) => counted
            .checked_add(names.as_slice().len())
            .ok_or(AllocError),
        Stat::LocalFunction(_, _, _) => counted.checked_add(1).ok_or(AllocError),
        Stat::Label(name, _) => {
            let name = name.copy()?;
            labels.push(Label {
                name,
                statement,
                visible,
            })?;
            Ok(counted)
        }
        _ => Ok(counted),
    }
}

/// The labels of a block at whose begin so many locals are visible.
fn labels_of(
    alloc: Global,
    all: &[Stat],
    start: usize,
    is_repeat: bool,
) -> Result<Items<Label>, AllocError>
    ensures { IfOk result (λ labels. labels
        ≡ spec.labels_in start is_repeat (map outline_of all.now)) }
{
    let plain = if is_repeat {
        all.len()
    } else {
        before_last_labels(all)
    };
    let mut labels = Items::new(alloc);
    let mut visible = start;
    let mut statement = 0;
    for s in all {
        let here = if statement < plain { visible } else { start };
        visible = note(&mut labels, s, statement, here, visible)?;
        statement += 1;
    }
    Ok(labels)
}

/// A block begins, with these statements, where so many locals are visible.
pub fn open(
    alloc: Global,
    blocks: &mut Items<OpenBlock>,
    all: &[Stat],
    start: usize,
    is_repeat: bool,
) -> Result<(), AllocError>
    ensures { OnOk result (blocks.new
        ≡ spec.opened start is_repeat (map outline_of all.now) blocks.old) }
{
    let labels = labels_of(alloc, all, start, is_repeat)?;
    blocks.push(OpenBlock { start, labels })
}

/// What the first label of this name is to a goto that leaves so many blocks, where so many of the
/// block's locals are visible at the goto.
fn at_label(name: &[u8], labels: &[Label], here: usize, leaves: usize) -> Option<Target>
    ensures { result ≡ spec.at_label (spec.label_named name.now labels.now) here leaves }
{
    for label in labels {
        if label.name.as_slice() == name {
            return Some(Target {
                leaves,
                statement: label.statement,
                into_local: here < label.visible,
            });
        }
    }
    None
}

/// Where a goto to this name goes from a place at which so many locals are visible, in these blocks
/// of its function, from the outermost to the innermost.
pub fn find_target(name: &[u8], visible: usize, blocks: &[OpenBlock]) -> Option<Target>
    ensures { result ≡ spec.target_of name.now visible blocks.now }
{
    let [block, inner @ ..] = blocks else {
        return None;
    };
    if let Some(target) = find_target(name, visible, inner) {
        return Some(target);
    }
    let here = match inner {
        [next, ..] => next.start,
        [] => visible,
    };
    at_label(name, block.labels.as_slice(), here, inner.len())
}
