// Operators by number, as they are spelled in a path.
ghost use Rattle.std.specs.Prelude.{◌≤◌, ◌<◌};
ghost use Rattle.sheet.specs.Operators.{operator_name};
ghost use Rattle.validation.specs.Location.{dotted};
ghost use Rattle.buffer.specs.Wrote.{Wrote};

use buffer::{push, put};

// Up to 7 after.
fn put_first(path: &mut [u8], at: usize, op: usize) -> usize
    requires { op < 8 }
    ensures { Wrote path.old path.new at (operator_name op) result }
{
    match op {
        2 => put(path, at, b"all"),
        3 => put(path, at, b"any"),
        4 => put(path, at, b"not"),
        5 => put(path, at, b"exists"),
        6 => put(path, at, b"before"),
        7 => put(path, at, b"after"),
        _ => put(path, at, b"literal"),
    }
}

// 8 eq to 14 in.
fn put_second(path: &mut [u8], at: usize, op: usize) -> usize
    requires { (8 ≤ op) × (op < 15) }
    ensures { Wrote path.old path.new at (operator_name op) result }
{
    match op {
        8 => put(path, at, b"eq"),
        9 => put(path, at, b"ne"),
        10 => put(path, at, b"gt"),
        11 => put(path, at, b"gte"),
        12 => put(path, at, b"lt"),
        13 => put(path, at, b"lte"),
        _ => put(path, at, b"in"),
    }
}

// From 15 contains on; no operator comes after for_any.
fn put_third(path: &mut [u8], at: usize, op: usize) -> usize
    requires { 15 ≤ op }
    ensures { Wrote path.old path.new at (operator_name op) result }
{
    match op {
        15 => put(path, at, b"contains"),
        16 => put(path, at, b"starts_with"),
        17 => put(path, at, b"ends_with"),
        18 => put(path, at, b"compare"),
        19 => put(path, at, b"truthy"),
        20 => put(path, at, b"for_all"),
        _ => put(path, at, b"for_any"),
    }
}

// Writes a dot and the operator's name.
pub fn put_operator(path: &mut [u8], at: usize, op: usize) -> usize
    ensures { Wrote path.old path.new at (dotted (operator_name op)) result }
{
    let next = push(path, at, b'.');
    if 15 <= op {
        return put_third(path, next, op);
    }
    if 8 <= op {
        return put_second(path, next, op);
    }
    put_first(path, next, op)
}
