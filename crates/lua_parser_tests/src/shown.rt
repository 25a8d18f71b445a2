//! The text of a tree.

use lanes_arena::Bytes;
use lua_tokens::Place;
use lua_tree::{Block, Body, Branch, Expr, ExprKind, Field, Stat, Tree};
use std::alloc::{AllocError, Global};

/// A part of a tree that is still to be shown.
#[derive(Clone, Copy)]
enum Piece<'a> {
    Expr(&'a Expr),
    Field(&'a Field),
    Stat(&'a Stat),
    Branch(&'a Branch),
    Block(&'a Block),
}

/// What is still to be shown, the next one last, and what was shown.
#[derive(Drop)]
struct Shown<'a> {
    text: Vec<u8>,
    parts: Vec<Piece<'a>>,
}

impl<'a> Shown<'a> {
    fn push(&mut self, part: Piece<'a>) -> Result<(), AllocError> {
        self.parts.push(part)?;
        Ok(())
    }

    fn push_exprs(&mut self, exprs: &'a [Expr]) -> Result<(), AllocError> {
        for expr in exprs.iter().rev() {
            self.push(Piece::Expr(expr))?;
        }
        Ok(())
    }

    fn put(&mut self, text: &[u8]) -> Result<(), AllocError> {
        self.text.extend_from_slice(text)
    }

    fn put_number(&mut self, alloc: Global, number: u32) -> Result<(), AllocError> {
        let text = number.to_string(alloc)?;
        self.put(text.as_bytes())
    }

    fn put_count(&mut self, alloc: Global, count: usize) -> Result<(), AllocError> {
        let text = count.to_string(alloc)?;
        self.put(text.as_bytes())
    }

    /// A name and the number of its token.
    fn put_name(&mut self, alloc: Global, name: &Bytes, place: Place) -> Result<(), AllocError> {
        self.put(name.as_slice())?;
        self.put(b"@")?;
        self.put_number(alloc, place.at)
    }

    fn put_names(&mut self, alloc: Global, names: &[(Bytes, Place)]) -> Result<(), AllocError> {
        for (name, place) in names {
            self.put(b" ")?;
            self.put_name(alloc, name, *place)?;
        }
        Ok(())
    }

    /// The body of a function.
    fn body(&mut self, alloc: Global, body: &'a Body) -> Result<(), AllocError> {
        self.put(b"body")?;
        self.put_count(alloc, body.params.as_slice().len())?;
        if body.vararg {
            self.put(b"...")?;
        }
        self.put(b":")?;
        self.put_number(alloc, body.line)?;
        self.put_names(alloc, body.params.as_slice())?;
        self.put(b" ")?;
        self.push(Piece::Block(&body.block))
    }

    /// What an operator or a leaf is.
    fn leaf(&mut self, alloc: Global, what: &'a ExprKind) -> Result<(), AllocError> {
        match what {
            ExprKind::Nil => self.put(b"nil"),
            ExprKind::True => self.put(b"true"),
            ExprKind::False => self.put(b"false"),
            ExprKind::Int(number) => {
                let text = number.to_string(alloc)?;
                self.put(text.as_bytes())
            }
            ExprKind::Text(text) => {
                self.put(b"'")?;
                self.put(text.as_slice())
            }
            ExprKind::Dots(place) => {
                self.put(b"dots@")?;
                self.put_number(alloc, place.at)
            }
            ExprKind::Name(name, _) => self.put(name.as_slice()),
            ExprKind::Binary(operator, ..) => {
                let text = format!(in alloc; "{operator:?}")?;
                self.put(text.as_bytes())
            }
            ExprKind::Unary(operator, _) => {
                let text = format!(in alloc; "{operator:?}")?;
                self.put(text.as_bytes())
            }
            ExprKind::And(..) => self.put(b"and"),
            ExprKind::Or(..) => self.put(b"or"),
            ExprKind::Index(..) => self.put(b"index"),
            ExprKind::Paren(_) => self.put(b"paren"),
            ExprKind::Function(_) => self.put(b"function"),
            ExprKind::Call(_, arguments) => {
                self.put(b"call")?;
                self.put_count(alloc, arguments.get().as_slice().len())
            }
            ExprKind::Method(_, name, arguments) => {
                self.put(b"method-")?;
                self.put(name.get().as_slice())?;
                self.put_count(alloc, arguments.get().as_slice().len())
            }
            ExprKind::Table(fields) => {
                self.put(b"table")?;
                self.put_count(alloc, fields.as_slice().len())
            }
        }
    }

    /// An expression, and its parts as what is still to be shown.
    fn expr(&mut self, alloc: Global, expr: &'a Expr) -> Result<(), AllocError> {
        self.leaf(alloc, &expr.what)?;
        self.put(b":")?;
        self.put_number(alloc, expr.line)?;
        self.put(b" ")?;
        match &expr.what {
            ExprKind::Binary(_, pair)
            | ExprKind::And(pair)
            | ExprKind::Or(pair)
            | ExprKind::Index(pair) => {
                let pair = pair.get();
                self.push(Piece::Expr(&pair.right))?;
                self.push(Piece::Expr(&pair.left))
            }
            ExprKind::Unary(_, inner) | ExprKind::Paren(inner) => self.push(Piece::Expr(
                inner.get(),
            )),
            ExprKind::Call(function, arguments) | ExprKind::Method(function, _, arguments) => {
                self.push_exprs(arguments.get().as_slice())?;
                self.push(Piece::Expr(function.get()))
            }
            ExprKind::Function(body) => self.body(alloc, body.get()),
            ExprKind::Table(fields) => {
                for field in fields.as_slice().iter().rev() {
                    self.push(Piece::Field(field))?;
                }
                Ok(())
            }
            _ => Ok(()),
        }
    }

    fn field(&mut self, field: &'a Field) -> Result<(), AllocError> {
        match field {
            Field::Item(value) => {
                self.put(b"item ")?;
                self.push(Piece::Expr(value))
            }
            Field::Named(name, value) => {
                self.put(b"named-")?;
                self.put(name.as_slice())?;
                self.put(b" ")?;
                self.push(Piece::Expr(value))
            }
            Field::Keyed(key, value) => {
                self.put(b"keyed ")?;
                self.push(Piece::Expr(value))?;
                self.push(Piece::Expr(key))
            }
        }
    }

    /// A statement, and its parts as what is still to be shown.
    fn stat(&mut self, alloc: Global, stat: &'a Stat) -> Result<(), AllocError> {
        match stat {
            Stat::Local(names, values) => {
                self.put(b"local")?;
                self.put_count(alloc, names.as_slice().len())?;
                self.put(b",")?;
                self.put_count(alloc, values.as_slice().len())?;
                for (name, constant, place) in names.as_slice() {
                    self.put(if *constant { b" const-" } else { b" " })?;
                    self.put_name(alloc, name, *place)?;
                }
                self.push_exprs(values.as_slice())?;
            }
            Stat::Assign(targets, values) => {
                self.put(b"set")?;
                self.put_count(alloc, targets.as_slice().len())?;
                self.put(b",")?;
                self.put_count(alloc, values.as_slice().len())?;
                self.push_exprs(values.as_slice())?;
                self.push_exprs(targets.as_slice())?;
            }
            Stat::Call(call) => {
                self.put(b"run")?;
                self.push(Piece::Expr(call))?;
            }
            Stat::Return(values) => {
                self.put(b"return")?;
                self.put_count(alloc, values.as_slice().len())?;
                self.push_exprs(values.as_slice())?;
            }
            Stat::Break(place) => {
                self.put(b"break@")?;
                self.put_number(alloc, place.at)?;
            }
            Stat::Goto(name, place) => {
                self.put(b"goto-")?;
                self.put_name(alloc, name, *place)?;
            }
            Stat::Label(name, place) => {
                self.put(b"label-")?;
                self.put_name(alloc, name, *place)?;
            }
            Stat::LocalFunction(name, place, body) => {
                self.put(b"localfunction-")?;
                self.put_name(alloc, name, *place)?;
                self.put(b" ")?;
                return self.body(alloc, body);
            }
            _ => self.loop_stat(alloc, stat)?,
        }
        self.put(b" ")
    }

    fn loop_stat(&mut self, alloc: Global, stat: &'a Stat) -> Result<(), AllocError> {
        match stat {
            Stat::Do(block) => {
                self.put(b"do")?;
                self.push(Piece::Block(block))
            }
            Stat::While(condition, block) => {
                self.put(b"while")?;
                self.push(Piece::Block(block))?;
                self.push(Piece::Expr(condition))
            }
            Stat::Repeat(block, condition) => {
                self.put(b"repeat")?;
                self.push(Piece::Expr(condition))?;
                self.push(Piece::Block(block))
            }
            Stat::If(branches, otherwise) => {
                self.put(b"if")?;
                self.put_count(alloc, branches.as_slice().len())?;
                if let Some(block) = otherwise {
                    self.put(b"-else")?;
                    self.push(Piece::Block(block))?;
                }
                for branch in branches.as_slice().iter().rev() {
                    self.push(Piece::Branch(branch))?;
                }
                Ok(())
            }
            Stat::ForNum(name, place, start, limit, step, block) => {
                self.put(b"for-")?;
                self.put_name(alloc, name, *place)?;
                self.push(Piece::Block(block))?;
                if let Some(step) = step {
                    self.put(b"-step")?;
                    self.push(Piece::Expr(step.get()))?;
                }
                self.push(Piece::Expr(limit.get()))?;
                self.push(Piece::Expr(start.get()))
            }
            Stat::ForIn(names, values, block) => {
                self.put(b"forin")?;
                self.put_count(alloc, names.as_slice().len())?;
                self.put(b",")?;
                self.put_count(alloc, values.as_slice().len())?;
                self.put_names(alloc, names.as_slice())?;
                self.push(Piece::Block(block))?;
                self.push_exprs(values.as_slice())
            }
            _ => Ok(()),
        }
    }

    fn block(&mut self, alloc: Global, block: &'a Block) -> Result<(), AllocError> {
        self.put(b"block")?;
        self.put_count(alloc, block.stats.as_slice().len())?;
        self.put(b" ")?;
        self.push_stats(block)
    }

    fn push_stats(&mut self, block: &'a Block) -> Result<(), AllocError> {
        for stat in block.stats.as_slice().iter().rev() {
            self.push(Piece::Stat(stat))?;
        }
        Ok(())
    }

    fn show(&mut self, alloc: Global, piece: Piece<'a>) -> Result<(), AllocError> {
        match piece {
            Piece::Expr(expr) => self.expr(alloc, expr),
            Piece::Field(field) => self.field(field),
            Piece::Stat(stat) => self.stat(alloc, stat),
            Piece::Block(block) => self.block(alloc, block),
            Piece::Branch(branch) => {
                self.push(Piece::Block(&branch.block))?;
                self.push(Piece::Expr(&branch.condition))
            }
        }
    }
}

/// The statements of a script, each part before its own parts.
pub fn text_of(alloc: Global, tree: &Tree) -> Result<Vec<u8>, AllocError> {
    let mut shown = Shown {
        text: Vec::new(alloc),
        parts: Vec::new(alloc),
    };
    shown.push_stats(&tree.block)?;
    for _ in 0..1000 {
        let Some(piece) = shown.parts.pop() else {
            break;
        };
        shown.show(alloc, piece)?;
    }
    Ok(shown.text)
}
