// Operators by number, as conditions spell them.
ghost use Rattle.std.specs.Prelude.{◌≤◌, ◌<◌};
ghost use Rattle.buffer.specs.Laid.{Laid};
ghost use Rattle.sheet.specs.Operators.{operator_name};

use buffer::lay::lay;

// Up to 7 after.
fn lay_first(out: &mut [u8], o: usize, op: usize) -> usize
    requires { op < 8 }
    ensures { Laid out.old out.new o (operator_name op) result }
{
    if op <= 1 {
        return lay(out, o, b"literal");
    }
    if op <= 2 {
        return lay(out, o, b"all");
    }
    if op <= 3 {
        return lay(out, o, b"any");
    }
    if op <= 4 {
        return lay(out, o, b"not");
    }
    if op <= 5 {
        return lay(out, o, b"exists");
    }
    if op <= 6 {
        return lay(out, o, b"before");
    }
    lay(out, o, b"after")
}

// 8 eq to 14 in.
fn lay_second(out: &mut [u8], o: usize, op: usize) -> usize
    requires { (8 ≤ op) × (op < 15) }
    ensures { Laid out.old out.new o (operator_name op) result }
{
    if op <= 8 {
        return lay(out, o, b"eq");
    }
    if op <= 9 {
        return lay(out, o, b"ne");
    }
    if op <= 10 {
        return lay(out, o, b"gt");
    }
    if op <= 11 {
        return lay(out, o, b"gte");
    }
    if op <= 12 {
        return lay(out, o, b"lt");
    }
    if op <= 13 {
        return lay(out, o, b"lte");
    }
    lay(out, o, b"in")
}

// From 15 contains on; no operator comes after for_any.
fn lay_third(out: &mut [u8], o: usize, op: usize) -> usize
    requires { 15 ≤ op }
    ensures { Laid out.old out.new o (operator_name op) result }
{
    if op <= 15 {
        return lay(out, o, b"contains");
    }
    if op <= 16 {
        return lay(out, o, b"starts_with");
    }
    if op <= 17 {
        return lay(out, o, b"ends_with");
    }
    if op <= 18 {
        return lay(out, o, b"compare");
    }
    if op <= 19 {
        return lay(out, o, b"truthy");
    }
    if op <= 20 {
        return lay(out, o, b"for_all");
    }
    lay(out, o, b"for_any")
}

pub fn lay_operator(out: &mut [u8], o: usize, op: usize) -> usize
    ensures { Laid out.old out.new o (operator_name op) result }
{
    if 15 <= op {
        return lay_third(out, o, op);
    }
    if 8 <= op {
        return lay_second(out, o, op);
    }
    lay_first(out, o, op)
}
