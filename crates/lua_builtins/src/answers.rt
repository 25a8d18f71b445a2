//! What the answers of the host give.
ghost use Rattle.std.specs.Prelude.{◌≤◌, ◌∷◌, length, Ok, Some};
ghost use Rattle.lanes_lib.specs.Face.{Gives, taken_print, taken_new, taken_linda, taken_reply, key_piece, item_piece, item_pieces, root_piece};
ghost use Rattle.lua_meaning.specs.Level.{Level};
ghost use Rattle.lua_meaning.specs.Library as spec;
ghost use Rattle.lua_machine.specs.Does.{ManyOf, OneOf, world};

use crate::asking::refuse;
use crate::given::{give_none, give_one};
use lanes_lib::{Answer, AskFault};
use linda_core::{Item, Key, LindaReply};
use lua_machine::{Done, Got, Host, Loaded, Machine};
use lua_meaning::{Fault, Site};
use object_store::Value;
use parcel::Leaf;

/// What an answer to a print gives.
pub fn took_print<H: Host>(
    m: &mut Machine<H>,
    p: &Loaded,
    site: Site,
    answer: &Answer,
    at: usize,
) -> Got
    requires { at ≤ length m.old.stack.values }
    ensures { (l : Level) → ManyOf H.asked (spec.took p.now l site (taken_print answer.now) (world
        m.old)) m.old at result m.new }
{
    match answer {
        Answer::Printed => give_none(m, at),
        Answer::WriteFault => {
            m.fault = Fault::WriteFault;
            Got::Failed
        }
        Answer::Memory => {
            m.lose();
            Got::Failed
        }
        _ => {
            m.broken();
            Got::Failed
        }
    }
}

/// What an answer to a new linda gives.
pub fn took_new<H: Host>(
    m: &mut Machine<H>,
    p: &Loaded,
    site: Site,
    answer: &Answer,
    at: usize,
) -> Got
    requires { at ≤ length m.old.stack.values }
    ensures { (l : Level) → ManyOf H.asked (spec.took p.now l site (taken_new answer.now) (world
        m.old)) m.old at result m.new }
{
    match answer {
        Answer::Linda(number) => give_one(m, at, Value::Linda(*number)),
        Answer::TooManyLindas => {
            refuse(m, p, site.line, AskFault::TooManyLindas);
            Got::Failed
        }
        Answer::Memory => {
            m.lose();
            Got::Failed
        }
        _ => {
            m.broken();
            Got::Failed
        }
    }
}

/// What an answer to a call on a linda gives.
pub fn took_linda<H: Host>(
    m: &mut Machine<H>,
    p: &Loaded,
    site: Site,
    answer: &Answer,
    at: usize,
) -> Got
    requires { at ≤ length m.old.stack.values }
    ensures { (l : Level) → ManyOf H.asked (spec.took p.now l site (taken_linda answer.now) (world
        m.old)) m.old at result m.new }
{
    match answer {
        Answer::Reply(reply) => took_reply(m, p, site, reply, at),
        Answer::NotBuilt => {
            refuse(m, p, site.line, AskFault::NotBuilt);
            Got::Failed
        }
        Answer::Memory => {
            m.lose();
            Got::Failed
        }
        _ => {
            m.broken();
            Got::Failed
        }
    }
}

/// What the reply of a linda gives.
fn took_reply<H: Host>(
    m: &mut Machine<H>,
    p: &Loaded,
    site: Site,
    reply: &LindaReply,
    at: usize,
) -> Got
    requires { at ≤ length m.old.stack.values }
    ensures { (l : Level) → ManyOf H.asked (spec.took p.now l site (taken_reply reply.now) (world
        m.old)) m.old at result m.new }
{
    match reply {
        LindaReply::Sent => give_one(m, at, Value::True),
        LindaReply::Got { key, values } => give_received(m, p, site, key, values.as_slice(), at),
        _ => {
            m.broken();
            Got::Failed
        }
    }
}

/// A key that was received, as a value.
fn place_key<H: Host>(m: &mut Machine<H>, p: &Loaded, site: Site, key: &Key) -> Done
    ensures { (l : Level) → OneOf H.asked (spec.place_piece p.now l site (key_piece key.now) (world
        m.old)) m.old result m.new }
{
    match key {
        Key::Int(number) => {
            m.value = Value::Int(*number);
            Done::Well
        }
        Key::Text(text) => m.intern(text.as_slice()),
        Key::Bool(truth) => {
            m.value = Value::from_bool(*truth);
            Done::Well
        }
    }
}

/// Gives nil, which stands for what no message holds yet.
fn nothing<H: Host>(m: &mut Machine<H>) -> Done
    ensures { OneOf H.asked (λ k. k (Ok Value.Nil) (world m.old)) m.old result m.new }
{
    m.value = Value::Nil;
    Done::Well
}

/// The root of an item that was received, as a value.
fn place_root<H: Host>(m: &mut Machine<H>, p: &Loaded, site: Site, root: &Leaf) -> Done
    ensures { (l : Level) → OneOf H.asked (spec.place_piece p.now l site (root_piece (Some
        root.now)) (world m.old)) m.old result m.new }
{
    match root {
        Leaf::Int(number) => {
            m.value = Value::Int(*number);
            Done::Well
        }
        Leaf::Text(text) => m.intern(text.as_slice()),
        Leaf::Nil => nothing(m),
        Leaf::Bool(_) => nothing(m),
        Leaf::Node(_) => nothing(m),
        Leaf::Lib(_) => nothing(m),
        Leaf::Linda(_) => nothing(m),
        Leaf::Light(_) => nothing(m),
        Leaf::Globals => nothing(m),
    }
}

/// An item that was received, as a value.
fn place_item<H: Host>(m: &mut Machine<H>, p: &Loaded, site: Site, item: &Item) -> Done
    ensures { (l : Level) → OneOf H.asked (spec.place_piece p.now l site (item_piece item.now)
        (world m.old)) m.old result m.new }
{
    match item.only_root() {
        Some(root) => place_root(m, p, site, root),
        None => nothing(m),
    }
}

/// A key and the items that were received under it.
fn give_received<H: Host>(
    m: &mut Machine<H>,
    p: &Loaded,
    site: Site,
    key: &Key,
    items: &[Item],
    at: usize,
) -> Got
    requires { at ≤ length m.old.stack.values }
    ensures { (l : Level) → ManyOf H.asked (spec.took p.now l site (Gives (key_piece key.now ∷
        item_pieces items.now)) (world m.old)) m.old at result m.new }
{
    m.stack.cut(at);
    well!(place_key(m, p, site, key));
    well!(m.push());
    for item in items {
        well!(place_item(m, p, site, item));
        well!(m.push());
    }
    Got::Many
}
