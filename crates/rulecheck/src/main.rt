// Checks the rule of the file `check.in` against its schema, and prints the answer (docs/FORMAT.md, "The program `rulecheck`").
#![tactic(auto)]

ghost use Rattle.std.specs.Prelude.{◌≤◌, IfOk, length, take, ◌≡◌};
ghost use Rattle.check_file.specs.Output.{output_of};

use byte_input::read_full;
use definition::limits::MAX_FILE_BYTES;
use printed_answer::{LINE_BYTES, output};
use std::rt::Files;
use std::{fs, io};

// One byte more than the longest file that is taken, so that a longer one shows.
const FILE_BYTES: usize = MAX_FILE_BYTES + 1;

// Writes what is printed for a file's bytes to the start of `line`, all of it, and returns how many bytes that is.
fn answer_line(file: &[u8], line: &mut [u8; LINE_BYTES]) -> usize
    ensures { (take result line.new ≡ output_of file.now) × (result ≤ length line.new) }
{
    output(file, line)
}

// Reads the file to the start of `file`, no more of it than there is room for, and returns how many bytes that is.
fn read_file(rt: &impl Files, file: &mut [u8; FILE_BYTES]) -> io::Result<usize>
    ensures { IfOk result (λ n. n ≤ length file.new) }
{
    read_full(&mut fs::open(rt, "check.in")?, file)
}

// A file that cannot be read has no answer, as one that is missing. The exit status is 0 in every case.
fn main(rt: HostRuntime) {
    let mut file = [0u8; FILE_BYTES];
    let Ok(n) = read_file(&rt, &mut file) else {
        return;
    };
    let mut line = [0u8; LINE_BYTES];
    let size = answer_line(&file[..n], &mut line);
    let _ = rt.write_all(&line[0..size]);
}
