//! What a walk over a tree has found: the visible locals, and which locals inner bodies name.
ghost use Rattle.std.specs.Prelude.{◌≡◌, true, map, slice_set, Some, Err, OnOk, IfOk, IfErr};
ghost use Rattle.std.specs.List.{list_any};
ghost use Rattle.std.specs.Str.{bytes_eq};
ghost use Rattle.lua_scope.specs.Labels.{outline_of};
ghost use Rattle.lua_scope.specs.Survey as spec;
ghost use Rattle.lua_scope.specs.Survey.{told};
ghost use Rattle.lua_scope.specs.Rules as rules;
ghost use Rattle.lua_scope.specs.Rules.{Tells, scope_of, with_block, with_label, with_name};

use crate::fault::ScopeFault;
use crate::labels::{OpenBlock, find_target, open};
use crate::scopes::{BlockScope, FunctionScope, Local, MOST_LOCALS, close, find, rest};
use lanes_arena::Bytes;
use lua_tokens::Place;
use lua_tree::Stat;
use sqlite_items::Items;
use std::alloc::{AllocError, Global};
use std::mem;

/// What was found: the visible locals; for each name so far the place of the local to which it
/// refers, or none for a global, in the order of the text; for each local declared so far whether
/// an inner body names it; for each body begun so far its captures, once it has ended; the captures
/// so far of the body in which the walk stands; the labels passed in the open blocks; the open
/// blocks; that body; and why the walk stopped, where it did. A capture is the place of a visible
/// local.
#[derive(Drop)]
pub struct Survey {
    pub locals: Items<Local>,
    pub names: Items<Option<usize>>,
    pub captured: Items<bool>,
    pub bodies: Items<Items<usize>>,
    pub captures: Items<usize>,
    pub labels: Items<Bytes>,
    pub blocks: Items<OpenBlock>,
    pub function: FunctionScope,
    pub fault: ScopeFault,
}

/// The walk stops: a rule is broken, or memory has run out. The survey says which. A tag alone is
/// answered fast, where a fault would go through memory at each call.
#[derive(Clone, Copy)]
pub struct Stopped;

/// Where a body began, and the captures until there of the body around it.
#[derive(Drop)]
pub struct Outer {
    pub block: BlockScope,
    pub captures: Items<usize>,
}

/// Whether a name is one that a script may not use as a variable.
pub fn is_refused(name: &Bytes) -> bool
    ensures { result ≡ spec.is_refused name.now }
{
    name.as_slice() == b"_ENV".as_slice()
}

/// Says of the local of this number that an inner body names it.
fn mark(captured: &mut Items<bool>, number: usize)
    ensures { captured.new ≡ slice_set captured.old number true }
{
    if number < captured.len() {
        captured.set(number, true);
    }
}

/// Adds a capture where it is new.
pub fn add(captures: &mut Items<usize>, at: usize) -> Result<(), AllocError>
    ensures { OnOk result (captures.new ≡ spec.added at captures.old) }
{
    if !captures.as_slice().contains(&at) {
        captures.push(at)?;
    }
    Ok(())
}

/// The captures of a body are captures of the body around it too, but for those that it declares
/// itself, past `start`.
fn pass_on(outer: &mut Items<usize>, inner: &[usize], start: usize) -> Result<(), AllocError>
    ensures { OnOk result (outer.new ≡ spec.passed start inner.now outer.old) }
{
    for at in inner {
        if *at < start {
            add(outer, *at)?;
        }
    }
    Ok(())
}

/// Whether one of these labels has a name.
fn has_label(name: &[u8], labels: &[Bytes]) -> bool
    ensures { result ≡ list_any (bytes_eq name.now) labels.now }
{
    for label in labels {
        if name == label.as_slice() {
            return true;
        }
    }
    false
}

impl Survey {
    /// Nothing is found yet, at the start of the main body.
    pub fn new(alloc: Global) -> Result<Survey, AllocError>
        ensures { IfOk result (λ survey. survey ≡ spec.start) }
    {
        let mut bodies = Items::new(alloc);
        bodies.push(Items::new(alloc))?;
        Ok(Survey {
            locals: Items::new(alloc),
            names: Items::new(alloc),
            captured: Items::new(alloc),
            bodies,
            captures: Items::new(alloc),
            labels: Items::new(alloc),
            blocks: Items::new(alloc),
            function: FunctionScope {
                body: 0,
                start: 0,
                labels: 0,
                blocks: 0,
                vararg: true,
                in_loop: false,
            },
            fault: ScopeFault::Memory,
        })
    }

    /// The walk stops, for this reason.
    fn stop(&mut self, fault: ScopeFault) -> Result<(), Stopped>
        ensures { told result self.new ≡ Err fault }
    {
        self.fault = fault;
        Err(Stopped)
    }

    /// A name refers to the local at this place.
    fn refer(&mut self, at: usize, place: Place, is_target: bool) -> Result<(), Stopped>
        ensures found { OnOk result (self.new ≡ spec.referred at self.old) }
        ensures fault { Tells (rules.referred at place is_target self.old) (told result self.new) }
        ensures scope { OnOk result (scope_of self.new ≡ scope_of self.old) }
    {
        let Some(local) = self.locals.get(at) else {
            return Ok(());
        };
        if is_target && local.constant {
            return self.stop(ScopeFault::ConstAssigned(place));
        }
        if at < self.function.start {
            let number = local.number;
            mark(&mut self.captured, number);
            let Ok(()) = add(&mut self.captures, at) else {
                return self.stop(ScopeFault::Memory);
            };
        }
        Ok(())
    }

    /// A variable is named, as a target of an assignment or else to be read.
    #[tactic(auto, using(crate::proofs::RuleLemmas::name_rules))]
    pub fn mention(&mut self, name: &Bytes, place: Place, is_target: bool) -> Result<(), Stopped>
        ensures found { OnOk result (self.new ≡ spec.mentioned name.now self.old) }
        ensures fault { Tells (rules.named name.now place is_target (scope_of self.old))
            (told result self.new) }
        ensures scope { OnOk result (scope_of self.new ≡ scope_of self.old) }
    {
        if is_refused(name) {
            return self.stop(ScopeFault::EnvName(place));
        }
        let found = find(name.as_slice(), self.locals.as_slice());
        let Ok(()) = self.names.push(found) else {
            return self.stop(ScopeFault::Memory);
        };
        match found {
            None => Ok(()),
            Some(at) => self.refer(at, place, is_target),
        }
    }

    /// `...` stands here.
    pub fn dots(&mut self, place: Place) -> Result<(), Stopped>
        ensures fault { Tells (rules.dots place (scope_of self.old)) (told result self.new) }
        ensures same { OnOk result (self.new ≡ self.old) }
    {
        if self.function.vararg {
            Ok(())
        } else {
            self.stop(ScopeFault::VarargOutside(place))
        }
    }

    /// `break` stands here.
    pub fn leave(&mut self, place: Place) -> Result<(), Stopped>
        ensures fault { Tells (rules.broken_off place (scope_of self.old)) (told result self.new) }
        ensures same { OnOk result (self.new ≡ self.old) }
    {
        if self.function.in_loop {
            Ok(())
        } else {
            self.stop(ScopeFault::BreakOutside(place))
        }
    }

    /// A goto to this name stands here, and no label of the name is visible.
    fn miss(&mut self, name: &Bytes, place: Place) -> Result<(), Stopped>
        ensures { Tells (Some (ScopeFault.NoLabel name.now place)) (told result self.new) }
    {
        match name.copy() {
            Ok(name) => self.stop(ScopeFault::NoLabel(name, place)),
            Err(_) => self.stop(ScopeFault::Memory),
        }
    }

    /// A goto to this name stands here.
    pub fn jump(&mut self, name: &Bytes, place: Place) -> Result<(), Stopped>
        ensures fault { Tells (rules.goto name.now place (scope_of self.old))
            (told result self.new) }
        ensures same { OnOk result (self.new ≡ self.old) }
    {
        let blocks = rest(self.function.blocks, self.blocks.as_slice());
        match find_target(name.as_slice(), self.locals.len(), blocks) {
            None => self.miss(name, place),
            Some(target) => {
                if target.into_local {
                    self.stop(ScopeFault::JumpIntoLocal(place))
                } else {
                    Ok(())
                }
            }
        }
    }

    /// Why a label of this name may not stand here, or none.
    fn label_fault(&self, name: &Bytes, place: Place) -> Result<Option<ScopeFault>, AllocError>
        ensures { IfOk result (λ fault. fault ≡ rules.label name.now place (scope_of self.now)) }
    {
        if has_label(
            name.as_slice(),
            rest(self.function.labels, self.labels.as_slice()),
        ) {
            Ok(Some(ScopeFault::LabelTwice(name.copy()?, place)))
        } else {
            Ok(None)
        }
    }

    /// A label is added to those passed, unless memory runs out.
    fn add_label(&mut self, name: &Bytes) -> Result<(), AllocError>
        ensures { OnOk result (self.new ≡ spec.passed_label name.now self.old) }
    {
        let name = name.copy()?;
        self.labels.push(name)
    }

    /// A label of this name stands here.
    pub fn pass(&mut self, name: &Bytes, place: Place) -> Result<(), Stopped>
        ensures found { OnOk result (self.new ≡ spec.passed_label name.now self.old) }
        ensures fault { Tells (rules.label name.now place (scope_of self.old))
            (told result self.new) }
        ensures scope { OnOk result (scope_of self.new ≡ with_label name.now (scope_of self.old)) }
    {
        match self.label_fault(name, place) {
            Ok(None) => match self.add_label(name) {
                Ok(()) => Ok(()),
                Err(_) => self.stop(ScopeFault::Memory),
            },
            Ok(Some(fault)) => self.stop(fault),
            Err(_) => self.stop(ScopeFault::Memory),
        }
    }

    /// A local is going to be declared, after `before` others of its statement.
    pub fn announce(&mut self, name: &Bytes, place: Place, before: usize) -> Result<(), Stopped>
        ensures fault { Tells (rules.declared name.now place before (scope_of self.old))
            (told result self.new) }
        ensures same { OnOk result (self.new ≡ self.old) }
    {
        if is_refused(name) {
            return self.stop(ScopeFault::EnvName(place));
        }
        let own = self.locals.len().saturating_sub(self.function.start);
        if own.saturating_add(before) >= MOST_LOCALS {
            return self.stop(ScopeFault::TooManyLocals(place));
        }
        Ok(())
    }

    /// A local is added, unless memory runs out.
    fn add_local(&mut self, name: &Bytes, constant: bool) -> Result<(), AllocError>
        ensures { OnOk result (self.new ≡ spec.declared name.now constant self.old) }
    {
        let number = self.captured.len();
        let name = name.copy()?;
        self.captured.push(false)?;
        self.locals.push(Local {
            name,
            constant,
            number,
        })
    }

    /// A local is visible from here on.
    pub fn declare(&mut self, name: &Bytes, constant: bool) -> Result<(), Stopped>
        ensures found { OnOk result (self.new ≡ spec.declared name.now constant self.old) }
        ensures fault { IfErr (told result self.new) (λ fault. fault ≡ ScopeFault.Memory) }
        ensures scope { OnOk result (scope_of self.new
            ≡ with_name (name.now, constant) (scope_of self.old)) }
    {
        match self.add_local(name, constant) {
            Ok(()) => Ok(()),
            Err(_) => self.stop(ScopeFault::Memory),
        }
    }

    /// The statements of a block begin, which is the body of a `repeat` or not.
    pub fn open(&mut self, alloc: Global, all: &[Stat], is_repeat: bool) -> Result<(), Stopped>
        ensures found { OnOk result (self.new
            ≡ spec.opened is_repeat (map outline_of all.now) self.old) }
        ensures fault { IfErr (told result self.new) (λ fault. fault ≡ ScopeFault.Memory) }
        ensures scope { OnOk result (scope_of self.new
            ≡ with_block is_repeat (map outline_of all.now) (scope_of self.old)) }
    {
        let start = self.locals.len();
        match open(alloc, &mut self.blocks, all, start, is_repeat) {
            Ok(()) => Ok(()),
            Err(_) => self.stop(ScopeFault::Memory),
        }
    }

    /// A block begins.
    pub fn begin(&self) -> BlockScope
        ensures { result ≡ spec.begun self.now }
    {
        BlockScope {
            locals: self.locals.len(),
            labels: self.labels.len(),
            blocks: self.blocks.len(),
            function: self.function,
        }
    }

    /// What follows is the body of a loop.
    pub fn enter_loop(&mut self)
        ensures { self.new ≡ spec.in_loop self.old }
    {
        self.function.in_loop = true;
    }

    /// A block ends.
    pub fn end(&mut self, block: BlockScope)
        ensures { self.new ≡ spec.ended block self.old }
    {
        close(&mut self.locals, block.locals);
        close(&mut self.labels, block.labels);
        close(&mut self.blocks, block.blocks);
        self.function = block.function;
    }

    /// The body of a function begins.
    pub fn enter(&mut self, alloc: Global, vararg: bool) -> Result<Outer, Stopped>
        ensures outer { IfOk result (λ outer. outer ≡ spec.outer self.old) }
        ensures entered { OnOk result (self.new ≡ spec.entered vararg self.old) }
        ensures fault { IfErr (told result self.new) (λ fault. fault ≡ ScopeFault.Memory) }
    {
        let block = self.begin();
        let body = self.bodies.len();
        let Ok(()) = self.bodies.push(Items::new(alloc)) else {
            self.fault = ScopeFault::Memory;
            return Err(Stopped);
        };
        let captures = mem::replace(&mut self.captures, Items::new(alloc));
        self.function = FunctionScope {
            body,
            start: block.locals,
            labels: block.labels,
            blocks: block.blocks,
            vararg,
            in_loop: false,
        };
        Ok(Outer { block, captures })
    }

    /// The body of a function ends.
    pub fn exit(&mut self, outer: Outer) -> Result<(), Stopped>
        ensures exited { OnOk result (self.new ≡ spec.exited outer self.old) }
        ensures fault { IfErr (told result self.new) (λ fault. fault ≡ ScopeFault.Memory) }
    {
        let body = self.function.body;
        let Outer { block, captures } = outer;
        let inner = mem::replace(&mut self.captures, captures);
        let Ok(()) = pass_on(&mut self.captures, inner.as_slice(), block.function.start) else {
            return self.stop(ScopeFault::Memory);
        };
        if body < self.bodies.len() {
            self.bodies.set(body, inner);
        }
        self.end(block);
        Ok(())
    }
}
