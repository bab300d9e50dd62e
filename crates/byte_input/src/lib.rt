// Reading into a lent buffer.
#![tactic(auto)]

ghost use Rattle.std.specs.Prelude.{ℕ, ◌<◌, ◌≤◌, IfOk, OnErr, length, take};
ghost use Rattle.std.specs.Io.KnownBytes.{Consumes, IsAtEnd};

use std::io;
use std::io::Read;

// Reads to the start of `buffer` until it is full or the reader has no more, and returns how many bytes that were. Never is more read
// than the buffer takes. After an error the bytes that came before it stand at the start.
pub fn read_full<R: Read>(reader: &mut R, buffer: &mut [u8]) -> io::Result<usize>
    ensures fits { IfOk result (λ n. n ≤ length buffer.new) }
    ensures bytes { IfOk result (λ n. Consumes (R.remaining reader.old) (R.remaining reader.new) (take n buffer.new)) }
    ensures end { IfOk result (λ n. n < length buffer.new → IsAtEnd (R.remaining reader.new)) }
    ensures err { OnErr result ((n : ℕ) × (n ≤ length buffer.new) × Consumes (R.remaining reader.old) (R.remaining reader.new) (take n buffer.new)) }
{
    let mut done = 0;
    while done < buffer.len() {
        let n = reader.read(&mut buffer[done..])?;
        if n == 0 {
            return Ok(done);
        }
        done += n;
    }
    Ok(done)
}

#[cfg(test)]
mod tests {
    use super::*;
    use std::io::{Error, ErrorKind};
    use std::test::Fail;

    // Gives a byte at each read, and fails at the one after the third.
    #[derive(Drop)]
    struct Dripping(u8);

    impl Read for Dripping {
        fn read(&mut self, buf: &mut [u8]) -> io::Result<usize> {
            if self.0 >= 3 {
                return Err(Error::from(ErrorKind::BrokenPipe));
            }
            if buf.is_empty() {
                return Ok(0);
            }
            self.0 += 1;
            buf[0] = self.0;
            Ok(1)
        }
    }

    #[test]
    fn reads_to_the_end(rt: HostRuntime) -> Result<(), Fail> {
        let mut bytes = "abc".as_bytes();
        let mut buffer = [0u8; 4];
        assert_eq!(rt; read_full(&mut bytes, &mut buffer)?, 3);
        assert_eq!(rt; buffer, [97, 98, 99, 0]);
        Ok(())
    }

    #[test]
    fn reads_no_more_than_has_room(rt: HostRuntime) -> Result<(), Fail> {
        let mut bytes = "abcde".as_bytes();
        let mut buffer = [0u8; 4];
        assert_eq!(rt; read_full(&mut bytes, &mut buffer)?, 4);
        assert_eq!(rt; bytes.len(), 1);
        Ok(())
    }

    #[test]
    fn stops_at_an_error(rt: HostRuntime) -> Result<(), Fail> {
        let mut few = [0u8; 3];
        assert_eq!(rt; read_full(&mut Dripping(0), &mut few)?, 3);
        assert_eq!(rt; few, [1, 2, 3]);
        let mut more = [0u8; 4];
        let failed = read_full(&mut Dripping(0), &mut more).is_err();
        assert!(rt; failed);
        assert_eq!(rt; more, [1, 2, 3, 0]);
        Ok(())
    }
}
