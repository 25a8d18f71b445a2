//! Trees into programs.
ghost use Rattle.std.specs.Prelude.{IfOk};
ghost use Rattle.lua_scope.specs.Rules.{Tells, broken};
ghost use Rattle.lua_scope.specs.Stands.{HasBodies, IsSpelled, Stands};

use crate::binding::bind;
use crate::fault::ScopeFault;
use crate::lower::program;
use lanes_arena::Bytes;
use lua_program::Program;
use lua_tree::Tree;
use std::alloc::Global;

/// The program of a script of this name. A fault is that of `bind`. A slot, a capture or a number
/// of a text, of a body or of a statement that doesn't fit its type is answered as want of memory;
/// no tree of a script of lawful length has one.
pub fn resolve(alloc: Global, tree: Tree, name: Bytes) -> Result<Program, ScopeFault>
    ensures bodies { IfOk result (λ program. HasBodies program name tree) }
    ensures stands { IfOk result (λ program. IsSpelled tree → Stands program name tree) }
    ensures fault { Tells (broken tree) result }
{
    let found = bind(alloc, &tree)?;
    let program = program(alloc, &found, tree, name)?;
    Ok(program)
}
