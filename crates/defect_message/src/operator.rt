// Operators by number, as conditions spell them.
ghost use Rattle.std.specs.Prelude.{◌≤◌, ◌<◌};
ghost use Rattle.buffer.specs.Laid.{Laid};
ghost use Rattle.sheet.specs.Operators.{operator_name};

use buffer::lay::lay;

// Up to 7 after.
fn lay_first(out: &mut [u8], o: usize, op: usize) -> usize
    requires { op < 8 }
    ensures { Laid out.old out.new o (operator_name op) result }
{
    match op {
        2 => lay(out, o, b"all"),
        3 => lay(out, o, b"any"),
        4 => lay(out, o, b"not"),
        5 => lay(out, o, b"exists"),
        6 => lay(out, o, b"before"),
        7 => lay(out, o, b"after"),
        _ => lay(out, o, b"literal"),
    }
}

// 8 eq to 14 in.
fn lay_second(out: &mut [u8], o: usize, op: usize) -> usize
    requires { (8 ≤ op) × (op < 15) }
    ensures { Laid out.old out.new o (operator_name op) result }
{
    match op {
        8 => lay(out, o, b"eq"),
        9 => lay(out, o, b"ne"),
        10 => lay(out, o, b"gt"),
        11 => lay(out, o, b"gte"),
        12 => lay(out, o, b"lt"),
        13 => lay(out, o, b"lte"),
        _ => lay(out, o, b"in"),
    }
}

// From 15 contains on; no operator comes after for_any.
fn lay_third(out: &mut [u8], o: usize, op: usize) -> usize
    requires { 15 ≤ op }
    ensures { Laid out.old out.new o (operator_name op) result }
{
    match op {
        15 => lay(out, o, b"contains"),
        16 => lay(out, o, b"starts_with"),
        17 => lay(out, o, b"ends_with"),
        18 => lay(out, o, b"compare"),
        19 => lay(out, o, b"truthy"),
        20 => lay(out, o, b"for_all"),
        _ => lay(out, o, b"for_any"),
    }
}

pub fn lay_operator(out: &mut [u8], o: usize, op: usize) -> usize
    ensures { Laid out.old out.new o (operator_name op) result }
{
    if 15 <= op {
        return lay_third(out, o, op);
    }
    if 8 <= op {
        return lay_second(out, o, op);
    }
    lay_first(out, o, op)
}
