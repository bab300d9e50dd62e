// The lines of the wall sheet. What does not fit is left out; each function returns the place after what it wrote.
ghost use Rattle.std.specs.Prelude.{◌≡◌, map, take};
ghost use Rattle.buffer.specs.Wrote.{Wrote};
ghost use Rattle.wall.specs.Pages.{blanks, column, shown, line, blank_line, heading, foot};
ghost use Rattle.wall.specs.Writing.{field, line_end, path_end};

use buffer::{push, put};
use single_check::outcome::Outcome;
use text::part::{Part, bytes_of};

// The columns of a line, and those that the numbers leave to the path.
const COLUMNS: usize = 80;

const PATH_COLUMNS: usize = 55;

fn put_blanks(out: &mut [u8], at: usize, count: usize) -> usize
    ensures { Wrote out.old out.new at (blanks count) result }
{
    let mut next = at;
    for _ in 0..count {
        next = push(out, next, b' ');
    }
    next
}

// Writes the last digits of a number, as many as there are columns, and blanks in front where it has fewer.
fn put_column(out: &mut [u8], at: usize, columns: usize, n: usize) -> usize
    ensures { Wrote out.old out.new at (column columns n) result }
{
    if columns == 0 {
        return at;
    }
    if n < 10 {
        let next = put_blanks(out, at, columns - 1);
        return push(out, next, 48 + n as u8);
    }
    let next = put_column(out, at, columns - 1, n / 10);
    push(out, next, 48 + (n % 10) as u8)
}

fn put_field(out: &mut [u8], at: usize, columns: usize, n: usize) -> usize
    ensures { Wrote out.old out.new at (field columns n) result }
{
    let next = put_column(out, at, columns, n);
    push(out, next, b' ')
}

// Fills a line that needs so many columns, and ends it.
fn end_line(out: &mut [u8], at: usize, missing: usize) -> usize
    ensures { Wrote out.old out.new at (line_end missing) result }
{
    let next = put_blanks(out, at, missing);
    push(out, next, b'\n')
}

fn shown_byte(b: u8) -> u8
    ensures { result ≡ shown b }
{
    if b < 32 {
        return b'?';
    }
    if 126 < b {
        return b'?';
    }
    b
}

fn put_shown(out: &mut [u8], at: usize, bytes: &[u8]) -> usize
    ensures { Wrote out.old out.new at (map shown bytes.now) result }
{
    let mut next = at;
    for &b in bytes {
        next = push(out, next, shown_byte(b));
    }
    next
}

// Writes the path in the columns that are left, and ends the line.
fn put_path(out: &mut [u8], at: usize, path: &[u8]) -> usize
    ensures { Wrote out.old out.new at (path_end path.now) result }
{
    if PATH_COLUMNS < path.len() {
        let last = put_shown(out, at, &path[0..PATH_COLUMNS - 1]);
        let next = push(out, last, b'>');
        return end_line(out, next, 0);
    }
    let next = put_shown(out, at, path);
    end_line(out, next, PATH_COLUMNS - path.len())
}

// The line of a sheet, by what its check answered. `path` holds the defect's path at its start.
pub fn put_line(out: &mut [u8], at: usize, serial: usize, o: Outcome, path: &[u8]) -> usize
    ensures { Wrote out.old out.new at (line serial o.number o.family o.place o.passed (take o.path_length path.now)) result }
{
    let mut next = put_field(out, at, 5, serial);
    next = put_field(out, next, 3, o.number as usize);
    next = put_field(out, next, 2, o.family as usize);
    next = put_field(out, next, 5, o.place as usize);
    next = put_field(out, next, 5, o.passed as usize);
    let part = Part {
        start: 0,
        len: o.path_length as usize,
    };
    put_path(out, next, bytes_of(path, part))
}

pub fn put_blank_line(out: &mut [u8], at: usize) -> usize
    ensures { Wrote out.old out.new at blank_line result }
{
    end_line(out, at, COLUMNS)
}

pub fn put_heading(out: &mut [u8], at: usize, number: usize) -> usize
    ensures { Wrote out.old out.new at (heading number) result }
{
    let mut next = put(out, at, b"PAGE ");
    next = put_column(out, next, 5, number);
    end_line(out, next, COLUMNS - 10)
}

pub fn put_foot(out: &mut [u8], at: usize, count: usize) -> usize
    ensures { Wrote out.old out.new at (foot count) result }
{
    let mut next = put(out, at, b"ACCEPTED ");
    next = put_column(out, next, 2, count);
    end_line(out, next, COLUMNS - 11)
}
