// Bytes laid one after another into a lent buffer. The place after them is returned, also where they do not fit; what lies in the buffer is
// then not said.
ghost use Rattle.std.specs.Prelude.{[], ◌∷◌, ◌≡◌, ◌+◌, ◌-◌, ◌≤◌, min, length, take, drop};
ghost use Rattle.std.proofs.lemmas.List.Edits.{sets};
ghost use Rattle.text.specs.Numeral.{decimal_of};
ghost use Rattle.buffer.specs.Laid.{most_place, Laid, Recounted};

// The last place that a number holds.
const MOST_PLACE: usize = 18446744073709551615;

// The place `n` bytes further on.
fn past(o: usize, n: usize) -> usize
    ensures { result ≡ min (o + n) most_place }
{
    if n <= MOST_PLACE - o {
        return o + n;
    }
    MOST_PLACE
}

pub fn lay_byte(out: &mut [u8], o: usize, byte: u8) -> usize
    ensures { Laid out.old out.new o (byte ∷ []) result }
{
    if o < out.len() {
        out[o] = byte;
        return o + 1;
    }
    past(o, 1)
}

// Bytes over others.
fn copy(part: &mut [u8], bytes: &[u8])
    requires { length part.old ≡ length bytes.now }
    ensures { part.new ≡ bytes.now }
{
    part.copy_from_slice(bytes);
}

pub fn lay(out: &mut [u8], o: usize, bytes: &[u8]) -> usize
    ensures { Laid out.old out.new o bytes.now result }
{
    let n = bytes.len();
    if out.len() < o {
        return past(o, n);
    }
    if out.len() - o < n {
        return past(o, n);
    }
    let next = o + n;
    copy(&mut out[o..next], bytes);
    next
}

// A number without leading zeros.
pub fn lay_decimal(out: &mut [u8], o: usize, n: usize) -> usize
    ensures { Laid out.old out.new o (decimal_of n) result }
{
    if n < 10 {
        return lay_byte(out, o, 48 + n as u8);
    }
    let next = lay_decimal(out, o, n / 10);
    lay_byte(out, next, 48 + (n % 10) as u8)
}

// The bytes from `from` up to `end` move `n` places further.
pub fn shift(out: &mut [u8], from: usize, end: usize, n: usize)
    requires { (from ≤ end) × (end + n ≤ length out.old) }
    ensures { out.new ≡ sets out.old (from + n) (take (end - from) (drop from out.old)) }
{
    out.copy_within(from..end, from + n);
}

// How many digits a numeral has besides its last one.
fn tens(n: usize) -> usize
    ensures { (result + 1 ≡ length (decimal_of n)) × (result ≤ n) }
{
    if n < 10 {
        return 0;
    }
    tens(n / 10) + 1
}

// The digit 0 at `at` becomes the numeral of n; what was laid behind it, up to `end`, follows. The place after it is returned.
pub fn recount(out: &mut [u8], at: usize, end: usize, n: usize) -> usize
    ensures { Recounted out.old out.new at end n result }
{
    if n < 10 {
        if at < out.len() {
            out[at] = 48 + n as u8;
            return end;
        }
        return end;
    }
    let more = tens(n);
    let next = past(end, more);
    if out.len() < end {
        return next;
    }
    if out.len() - end < more {
        return next;
    }
    if end <= at {
        return next;
    }
    shift(out, at + 1, end, more);
    lay_decimal(out, at, n);
    next
}
