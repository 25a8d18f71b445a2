//! Scopes: each name of a tree bound to a local, a captured local or a global, each goto to its
//! label (Lua manual, sections 3.3.4 and 3.5).
#![tactic(auto)]

mod binding;
mod build;
mod fault;
mod kept;
mod labels;
mod lower;
mod resolving;
mod scopes;
mod survey;
mod texts;
mod walk;

ghost use Rattle.std.specs.Prelude.{◌≡◌, ◌↔◌, ℕ, Some, None};
ghost use Rattle.lua_scope.specs.Binding as binding;

pub use binding::{Bindings, bind};
pub use fault::ScopeFault;
pub use lua_program::{
    Jump, PlacedText, Program, Proto, RBranch, RExpr, RExprKind, RField, RPair, RStat, Ref, Spot,
    UpFrom,
};
pub use resolving::resolve;
pub use scopes::MOST_LOCALS;

/// A name refers to the innermost visible local of that name, and is a global where there is none.
pub fn innermost()
    ensures local { (name : binding.Bytes) (visible : binding.Names) (at : ℕ)
        → (binding.innermost name visible ≡ Some at) ↔ binding.RefersTo name visible at }
    ensures global { (name : binding.Bytes) (visible : binding.Names)
        → (binding.innermost name visible ≡ None) ↔ binding.IsGlobal name visible }
{}
