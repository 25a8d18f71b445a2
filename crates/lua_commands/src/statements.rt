//! Statements by their form (Lua 5.4 manual, section 3.3).
ghost use Rattle.std.specs.Prelude.{◌≡◌};
ghost use Rattle.lua_program.specs.declared.stat.RStat.{out-RStat};
ghost use Rattle.lua_meaning.specs.Levels.{level};
ghost use Rattle.lua_meaning.specs.Statements.{stmt_on};
ghost use Rattle.lua_machine.specs.Does.{Fits, FlowOf, Stands, frame, world};
ghost use Rattle.lua_commands.specs.Assigned.{flow_by};

use crate::assignments::assign;
use crate::declarations::{local, local_function};
use crate::iterators::generic_for;
use crate::returns::give_back;
use lua_machine::{Below, Done, FlowTag, Got, Host, Loaded, Machine, Window};
use lua_meaning::Site;
use lua_program::{Jump, RExpr, RStat};
use lua_statements::{block, branches, numeric_for, repeat_turns, while_turns};

/// A statement that did its work goes on with the next one.
#[inline(always)]
fn goes(done: Done) -> FlowTag
    ensures { result ≡ flow_by done }
{
    match done {
        Done::Well => FlowTag::Goes,
        Done::Failed => FlowTag::Fails,
    }
}

/// A `goto`.
fn jump<H: Host>(m: &mut Machine<H>, j: &Jump) -> FlowTag
    ensures tag { result ≡ FlowTag.Jumps }
    ensures machine { m.new ≡ record m.old {
      leaves = j.now.leaves;
      statement = j.now.statement;
    } }
{
    m.leaves = j.leaves;
    m.statement = j.statement;
    FlowTag::Jumps
}

/// A statement whose parts stand on the level below.
#[inline(always)]
pub fn stmt_on<H, E, M, C, S>(
    b: &Below<H, E, M, C, S>,
    m: &mut Machine<H>,
    p: &Loaded,
    f: &Window,
    s: &RStat,
) -> FlowTag
where
    H: Host,
    E: Fn(&mut Machine<H>, &Loaded, &Window, &RExpr, u32) -> Done + Copy,
    M: Fn(&mut Machine<H>, &Loaded, &Window, &RExpr, u32) -> Got + Copy,
    C: Fn(&mut Machine<H>, &Loaded, Site, usize, u32) -> Got + Copy,
    S: Fn(&mut Machine<H>, &Loaded, &Window, &RStat, u32) -> FlowTag + Copy,
    requires stands { Stands H.asked p.now b.now.level (E.pre b.now.expr) (E.post b.now.expr)
        (M.pre b.now.multi) (M.post b.now.multi) (C.pre b.now.call) (C.post b.now.call)
        (S.pre b.now.stmt) (S.post b.now.stmt) }
    requires fits { Fits f.now m.old.stack }
    ensures { FlowOf H.asked (stmt_on p.now (level p.now b.now.level) (out-RStat s.now) (frame f.now
        m.old.stack) (world m.old)) m.old f.now result m.new }
{
    match s {
        RStat::Local(ls, es) => goes(local(b, m, p, f, ls.as_slice(), es.as_slice())),
        RStat::Assign(ts, es) => goes(assign(b, m, p, f, ts.as_slice(), es.as_slice())),
        RStat::Call(e) => goes(b.one(m, p, f, e)),
        RStat::Do(ss) => block(b, m, p, f, ss.as_slice()),
        RStat::While(e, body) => while_turns(b, m, p, f, e, body.as_slice()),
        RStat::Repeat(body, e) => repeat_turns(b, m, p, f, body.as_slice(), e),
        RStat::If(bs, last) => branches(b, m, p, f, bs.as_slice(), last),
        RStat::ForNum(r, start, limit, step, body) => {
            numeric_for(
                b,
                m,
                p,
                f,
                r,
                start.get(),
                limit.get(),
                step,
                body.as_slice(),
            )
        }
        RStat::ForIn(rs, es, body) => {
            generic_for(b, m, p, f, rs.as_slice(), es.as_slice(), body.as_slice())
        }
        RStat::LocalFunction(r, n) => goes(local_function(b, m, p, f, r, *n)),
        RStat::Return(es) => give_back(b, m, p, f, es.as_slice()),
        RStat::Break(_) => FlowTag::Breaks,
        RStat::Goto(j) => jump(m, j.get()),
        RStat::Label(_) => FlowTag::Goes,
    }
}
