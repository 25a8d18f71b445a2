//! What is known at a place of a script: its visible locals, its function body and its blocks.
ghost use Rattle.std.specs.Prelude.{◌≡◌, drop, take};
ghost use Rattle.lua_scope.specs.Visible.{last_named};

use lanes_arena::Bytes;
use sqlite_items::Items;

/// The greatest number of locals that are visible at once in a function (manual, section 3.3.7).
pub const MOST_LOCALS: usize = 200;

/// A local that is visible: its name, whether it is `<const>`, and its number in the order of the
/// declarations of a script.
#[derive(Drop)]
pub struct Local {
    pub name: Bytes,
    pub constant: bool,
    pub number: usize,
}

/// The function body in which a place stands: its number, how many locals were visible, how many
/// labels passed and how many blocks open where it begins, whether it takes `...`, and whether the
/// place stands in a loop of it.
#[derive(Clone, Copy)]
pub struct FunctionScope {
    pub body: usize,
    pub start: usize,
    pub labels: usize,
    pub blocks: usize,
    pub vararg: bool,
    pub in_loop: bool,
}

/// Where a block begins: how many locals are visible there, how many labels were passed and how
/// many blocks are open, and the function body in which it stands.
#[derive(Clone, Copy)]
pub struct BlockScope {
    pub locals: usize,
    pub labels: usize,
    pub blocks: usize,
    pub function: FunctionScope,
}

/// The place of the last local of this name.
#[tactic(auto, using(crate::proofs::VisibleLemmas::find_rules))]
pub fn find(name: &[u8], locals: &[Local]) -> Option<usize>
    ensures { result ≡ last_named name.now locals.now }
{
    let mut at = locals.len();
    while at > 0 {
        if locals[at - 1].name.as_slice() == name {
            return Some(at - 1);
        }
        at -= 1;
    }
    None
}

/// Takes away what was added past the first `count`.
pub fn close<T: Drop>(items: &mut Items<T>, count: usize)
    ensures { items.new ≡ take count items.old }
{
    while items.len() > count {
        let _last = items.pop();
    }
}

/// What stands from this place on, nothing past the end.
pub fn rest<T>(at: usize, items: &[T]) -> &[T]
    ensures { result.now ≡ drop at items.now }
{
    if at <= items.len() { &items[at..] } else { &[] }
}
