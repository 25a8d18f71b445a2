//! The loops, and what came of them.
use object_store::{SetFault, State, Table, Value};
use std::alloc::Global;

/// What came of the loops.
#[derive(Clone, Copy, Debug, Default)]
pub struct Counts {
    pub appended: i64,
    pub sum: i64,
    pub met: u64,
    pub removed: i64,
    pub found: u64,
    pub named: i64,
    pub listed: i64,
}

/// Appends the integers 1 to `n`, and answers how many had room.
fn append(table: &mut Table, n: i64) -> i64 {
    for i in 0..n {
        if table.set(Value::Int(i + 1), Value::Int(i + 1)).is_err() {
            return i;
        }
    }
    n
}

/// The sum of the values at 1 to `n`, modulo 2^64.
fn sum(table: &Table, n: i64) -> i64 {
    let mut sum: i64 = 0;
    for i in 0..n {
        if let Value::Int(value) = table.get(Value::Int(i + 1)) {
            sum = sum.wrapping_add(value);
        }
    }
    sum
}

/// How many pairs a walk meets.
fn walk(table: &Table) -> u64 {
    let mut key = Value::Nil;
    for met in 0..u64::MAX {
        match table.next(key) {
            Ok(Some((next, _))) => key = next,
            _ => return met,
        }
    }
    u64::MAX
}

/// Removes the value at the border, `n` times, and answers how many were taken.
fn remove(table: &mut Table, n: i64) -> i64 {
    for i in 0..n {
        let last = table.border();
        if table.set(Value::Int(last), Value::Nil).is_err() {
            return i;
        }
    }
    n
}

/// How often the key has a value in `n` reads.
fn reads(table: &Table, key: Value, n: i64) -> u64 {
    let mut found: u64 = 0;
    for _ in 0..n {
        let value = table.get(key);
        if !value.is_nil() {
            found = found.wrapping_add(1);
        }
    }
    found
}

/// The reads by one text key of a table that has it.
fn text_reads(alloc: Global, n: i64) -> u64 {
    let Ok(mut state) = State::new(alloc, 1) else {
        return 0;
    };
    let Ok(name) = state.intern(b"name") else {
        return 0;
    };
    let mut table = Table::new(alloc);
    if table.set(name, Value::True).is_err() {
        return 0;
    }
    reads(&table, name, n)
}

/// A table `{x = 1, y = 2}`, or `{1, 2}`.
fn small_table(alloc: Global, keys: [Value; 2], room: usize) -> Result<Table, SetFault> {
    let mut table = Table::new(alloc);
    if table.reserve(room).is_err() {
        return Err(SetFault::Memory);
    }
    table.set(keys[0], Value::Int(1))?;
    table.set(keys[1], Value::Int(2))?;
    Ok(table)
}

/// Makes `n` small tables with these keys in a state, and answers how many had room.
fn small_tables(state: &mut State, alloc: Global, keys: [Value; 2], room: usize, n: i64) -> i64 {
    for i in 0..n {
        if state.reserve(1, 0, 0).is_err() {
            return i;
        }
        match small_table(alloc, keys, room) {
            Ok(table) => {
                state.add_table(table);
            }
            Err(_) => return i,
        }
    }
    n
}

/// The tables `{x = 1, y = 2}`.
fn named_tables(alloc: Global, n: i64) -> i64 {
    let Ok(mut state) = State::new(alloc, 1) else {
        return 0;
    };
    let Ok(x) = state.intern(b"x") else {
        return 0;
    };
    let Ok(y) = state.intern(b"y") else {
        return 0;
    };
    small_tables(&mut state, alloc, [x, y], 2, n)
}

/// The tables `{1, 2}`.
fn listed_tables(alloc: Global, n: i64) -> i64 {
    let Ok(mut state) = State::new(alloc, 1) else {
        return 0;
    };
    small_tables(&mut state, alloc, [Value::Int(1), Value::Int(2)], 0, n)
}

/// What comes of the first `loops` loops of `n` calls each.
pub fn run_loops(alloc: Global, n: i64, loops: u32) -> Counts {
    let mut table = Table::new(alloc);
    let appended = if loops > 0 { append(&mut table, n) } else { 0 };
    let sum = if loops > 1 { sum(&table, n) } else { 0 };
    let met = if loops > 2 { walk(&table) } else { 0 };
    let removed = if loops > 3 { remove(&mut table, n) } else { 0 };
    let found = if loops > 4 { text_reads(alloc, n) } else { 0 };
    let named = if loops > 5 { named_tables(alloc, n) } else { 0 };
    let listed = if loops > 6 {
        listed_tables(alloc, n)
    } else {
        0
    };
    Counts {
        appended,
        sum,
        met,
        removed,
        found,
        named,
        listed,
    }
}
