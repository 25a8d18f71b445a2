//! What is built of a program while its tree is walked over.
ghost use Rattle.std.specs.Prelude.{◌≡◌, map, IfOk, OnOk};
ghost use Rattle.lua_scope.specs.Labels.{outline_of};
ghost use Rattle.lua_scope.specs.Build as spec;
ghost use Rattle.lua_scope.specs.Build.{Makes};

use crate::binding::Bindings;
use crate::labels::{OpenBlock, find_target, open};
use crate::scopes::{close, rest};
use crate::texts::Texts;
use lanes_arena::{Bytes, Row};
use lua_program::{Jump, PlacedText, Proto, Ref, UpFrom};
use lua_tokens::Place;
use lua_tree::Stat;
use sqlite_items::{Boxed, Items};
use std::alloc::{AllocError, Global};

/// The function body in which a place stands: its number, how many locals were visible and how many
/// blocks open where it begins, and how many slots it needs so far.
#[derive(Clone, Copy)]
pub struct FunctionFrame {
    pub body: usize,
    pub start: usize,
    pub blocks: usize,
    pub slots: usize,
}

/// What was built: the visible locals, each by the number of its declaration, how many were
/// declared so far, the number of the next name in the text, the open blocks, the body in which the
/// walk stands, the bodies so far, and the texts so far.
#[derive(Drop)]
pub struct Builder {
    pub locals: Items<usize>,
    pub declared: usize,
    pub next: usize,
    pub blocks: Items<OpenBlock>,
    pub frame: FunctionFrame,
    pub protos: Items<Proto>,
    pub texts: Texts,
}

/// Where a block or a body begins: how many locals are visible and how many blocks open there, and
/// the body in which it stands.
#[derive(Clone, Copy)]
pub struct BlockFrame {
    pub locals: usize,
    pub blocks: usize,
    pub function: FunctionFrame,
}

/// The same number in 16 bits, if there is one.
pub fn small(number: usize) -> Result<u16, AllocError>
    ensures { IfOk result (λ small. small ≡ number) }
{
    if number < 1 << 16 {
        Ok(number as u16)
    } else {
        Err(AllocError)
    }
}

/// The same number in 32 bits, if there is one.
pub fn narrow(number: usize) -> Result<u32, AllocError>
    ensures { IfOk result (λ narrow. narrow ≡ number) }
{
    if number < 1 << 32 {
        Ok(number as u32)
    } else {
        Err(AllocError)
    }
}

/// Whether an inner body names the local of this number.
fn is_captured(found: &Bindings, number: usize) -> bool
    ensures { result ≡ spec.is_captured found.now number }
{
    match found.captured.get(number) {
        Some(captured) => *captured,
        None => false,
    }
}

/// The place of a number in a list, or the length of the list.
fn place_in(at: usize, captures: &[usize]) -> usize
    ensures { result ≡ spec.place_in at captures.now }
{
    let mut place = 0;
    for other in captures {
        if *other == at {
            return place;
        }
        place += 1;
    }
    place
}

/// The place of a visible local among the captures of a body.
fn capture_place(found: &Bindings, body: usize, at: usize) -> usize
    ensures { result ≡ spec.capture_place found.now body at }
{
    match found.bodies.get(body) {
        Some(captures) => place_in(at, captures.as_slice()),
        None => 0,
    }
}

/// Where a new function finds the visible local at this place.
fn up_from(found: &Bindings, frame: FunctionFrame, at: usize) -> Result<UpFrom, AllocError>
    ensures { IfOk result (λ up. up ≡ spec.up_from found.now frame at) }
{
    if at < frame.start {
        Ok(UpFrom::ParentUp(small(capture_place(found, frame.body, at))?))
    } else {
        Ok(UpFrom::ParentCell(small(at - frame.start)?))
    }
}

fn ups(
    alloc: Global,
    found: &Bindings,
    frame: FunctionFrame,
    captures: &[usize],
) -> Result<Row<UpFrom>, AllocError>
    ensures { IfOk result (λ ups. ups ≡ spec.ups found.now frame captures.now) }
{
    let mut ups = Row::new(alloc);
    for at in captures {
        ups.push(up_from(found, frame, *at)?)?;
    }
    Ok(ups)
}

/// Where a body that captures these locals finds them, in the function in which the walk stands.
pub fn ups_of(
    alloc: Global,
    found: &Bindings,
    frame: FunctionFrame,
    body: usize,
) -> Result<Row<UpFrom>, AllocError>
    ensures { IfOk result (λ ups. ups ≡ spec.ups_of found.now frame body) }
{
    match found.bodies.get(body) {
        Some(captures) => ups(alloc, found, frame, captures.as_slice()),
        None => Ok(Row::new(alloc)),
    }
}

/// What stands in the place of a body that isn't finished.
fn blank(alloc: Global) -> Proto
    ensures { result ≡ spec.blank }
{
    Proto {
        params: 0,
        cells: Row::new(alloc),
        vararg: false,
        slots: 0,
        ups: Row::new(alloc),
        body: Row::new(alloc),
        line: 0,
    }
}

impl Builder {
    /// Nothing is built yet, before the main body.
    pub fn new(alloc: Global) -> Builder
        ensures { result ≡ spec.start }
    {
        Builder {
            locals: Items::new(alloc),
            declared: 0,
            next: 0,
            blocks: Items::new(alloc),
            frame: FunctionFrame {
                body: 0,
                start: 0,
                blocks: 0,
                slots: 0,
            },
            protos: Items::new(alloc),
            texts: Texts::new(alloc),
        }
    }

    /// The place of a text.
    pub fn text(&mut self, text: &Bytes) -> Result<u32, AllocError>
        ensures { Makes (spec.text text.now self.old) result self.new }
    {
        self.texts.place(text)
    }

    /// A text beside its place.
    pub fn placed(&mut self, alloc: Global, bytes: Bytes) -> Result<Boxed<PlacedText>, AllocError>
        ensures { Makes (spec.placed bytes self.old) result self.new }
    {
        let place = self.texts.place(&bytes)?;
        Boxed::new(alloc, PlacedText { bytes, place })
    }

    /// A local of the function in which the walk stands, by the number of its declaration and its
    /// slot.
    fn own(&self, found: &Bindings, number: usize, slot: usize) -> Result<Ref, AllocError>
        ensures { IfOk result (λ r. r ≡ spec.own found.now number slot) }
    {
        let slot = small(slot)?;
        if is_captured(found, number) {
            Ok(Ref::CellSlot(slot))
        } else {
            Ok(Ref::Slot(slot))
        }
    }

    /// The visible local at this place.
    fn local(&self, found: &Bindings, at: usize) -> Result<Ref, AllocError>
        ensures { IfOk result (λ r. r ≡ spec.local found.now at self.now) }
    {
        if at < self.frame.start {
            return Ok(Ref::Up(small(capture_place(found, self.frame.body, at))?));
        }
        match self.locals.get(at) {
            Some(number) => self.own(found, *number, at - self.frame.start),
            None => Ok(Ref::Slot(0)),
        }
    }

    /// What the next name of the text refers to.
    pub fn name(&mut self, alloc: Global, found: &Bindings, name: Bytes) -> Result<Ref, AllocError>
        ensures { Makes (spec.name found.now name self.old) result self.new }
    {
        let number = self.next;
        let Some(next) = number.checked_add(1) else {
            return Err(AllocError);
        };
        self.next = next;
        match found.names.get(number) {
            Some(Some(at)) => self.local(found, *at),
            _ => Ok(Ref::Global(self.placed(alloc, name)?)),
        }
    }

    /// A local is visible from here on.
    pub fn declare(&mut self, found: &Bindings) -> Result<Ref, AllocError>
        ensures { Makes (spec.declare found.now self.old) result self.new }
    {
        let number = self.declared;
        let Some(declared) = number.checked_add(1) else {
            return Err(AllocError);
        };
        let count = self.locals.len();
        let slot = count.saturating_sub(self.frame.start);
        let Some(slots) = slot.checked_add(1) else {
            return Err(AllocError);
        };
        let local = self.own(found, number, slot)?;
        self.locals.push(number)?;
        self.declared = declared;
        if slots > self.frame.slots {
            self.frame.slots = slots;
        }
        Ok(local)
    }

    /// A block begins.
    pub fn begin(&self) -> BlockFrame
        ensures { result ≡ spec.opened self.now }
    {
        BlockFrame {
            locals: self.locals.len(),
            blocks: self.blocks.len(),
            function: self.frame,
        }
    }

    /// A block ends, of the body in which the walk stands.
    pub fn end(&mut self, block: BlockFrame)
        ensures { self.new ≡ spec.ended block self.old }
    {
        close(&mut self.locals, block.locals);
        close(&mut self.blocks, block.blocks);
    }

    /// The statements of a block begin, which is the body of a `repeat` or not.
    pub fn open(&mut self, alloc: Global, all: &[Stat], is_repeat: bool) -> Result<(), AllocError>
        ensures { OnOk result (self.new
            ≡ spec.with_labels is_repeat (map outline_of all.now) self.old) }
    {
        let start = self.locals.len();
        open(alloc, &mut self.blocks, all, start, is_repeat)
    }

    /// A goto to this name, with its target.
    pub fn jump(&self, name: Bytes, place: Place) -> Result<Jump, AllocError>
        ensures { IfOk result (λ jump. jump ≡ spec.jump name place (spec.target name self.now)) }
    {
        let blocks = rest(self.frame.blocks, self.blocks.as_slice());
        match find_target(name.as_slice(), self.locals.len(), blocks) {
            Some(target) => {
                let leaves = narrow(target.leaves)?;
                let statement = narrow(target.statement)?;
                Ok(Jump {
                    name,
                    place,
                    leaves,
                    statement,
                })
            }
            None => Ok(Jump {
                name,
                place,
                leaves: 0,
                statement: 0,
            }),
        }
    }

    /// A body begins. Its number is taken.
    pub fn enter(&mut self, alloc: Global) -> Result<BlockFrame, AllocError>
        ensures { Makes (spec.entered self.old) result self.new }
    {
        let block = self.begin();
        let body = self.protos.len();
        self.protos.push(blank(alloc))?;
        self.frame = FunctionFrame {
            body,
            start: block.locals,
            blocks: block.blocks,
            slots: 0,
        };
        Ok(block)
    }

    /// A body ends, with what was made of it.
    pub fn exit(&mut self, block: BlockFrame, proto: Proto) -> Result<u32, AllocError>
        ensures { Makes (spec.exited block proto self.old) result self.new }
    {
        let body = self.frame.body;
        if body < self.protos.len() {
            self.protos.set(body, proto);
        }
        close(&mut self.locals, block.locals);
        close(&mut self.blocks, block.blocks);
        self.frame = block.function;
        narrow(body)
    }
}
