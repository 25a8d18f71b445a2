//! What the names of a script refer to.
ghost use Rattle.std.specs.Prelude.{◌≡◌, IfOk};
ghost use Rattle.lua_scope.specs.Binding.{bindings_of};
ghost use Rattle.lua_scope.specs.Rules.{Tells, broken};

use crate::fault::ScopeFault;
use crate::survey::Survey;
use crate::walk::survey;
use lua_tree::Tree;
use sqlite_items::Items;
use std::alloc::Global;

/// What the names of a script refer to (manual, section 3.5). For each name, those in function
/// bodies too, in the order of the text: the place of a local among those that are visible there,
/// or none for a global. For each local, in the order in which they become visible: whether a
/// function body in its scope names it. And for each function body, the main body first and then in
/// the order of their first tokens: its captures, which are the places of the outer locals that it
/// or its inner bodies name, in the order in which they are first named.
#[derive(Drop)]
pub struct Bindings {
    pub names: Items<Option<usize>>,
    pub captured: Items<bool>,
    pub bodies: Items<Items<usize>>,
}

/// What the names of a tree refer to. A fault is that of the first place in the text that breaks a
/// rule of scope (manual, sections 3.3.4, 3.3.7, 3.4.11 and 3.5): an assignment to a `<const>`
/// local, at the name that is assigned to; `break` in no loop of its function; `...` in a function
/// without it; the 201st local that is visible at once in a function, at its declaration; the name
/// `_ENV`, as a variable or as a declared name; a goto to a name of which no label is visible, or
/// into the scope of a local; a label of a name that one before it has, in its block or one round
/// it in the function. Where one name breaks two rules, `_ENV` is answered.
#[tactic(auto, using(crate::proofs::CaptureLemmas::bound))]
pub fn bind(alloc: Global, tree: &Tree) -> Result<Bindings, ScopeFault>
    ensures bindings { IfOk result (λ found. found ≡ bindings_of tree.now) }
    ensures fault { Tells (broken tree.now) result }
{
    let Survey {
        names,
        captured,
        bodies,
        ..
    } = survey(alloc, tree)?;
    Ok(Bindings {
        names,
        captured,
        bodies,
    })
}
