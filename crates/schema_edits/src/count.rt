// How many entries a sheet has, and how many digits their count.
ghost use Rattle.std.specs.Prelude.{◌≡◌, ◌+◌, ◌≤◌, length};
ghost use Rattle.text.specs.Numeral.{decimal_of};
ghost use Rattle.schema_edits.specs.Forest.{EntriesAre};

use sheet::schema_heads::known_field;

// The entries of fields from `start` on, up to the end of the bytes.
pub fn count_entries(s: &[u8], start: usize) -> usize
    ensures { EntriesAre s.now start result }
{
    let mut at = start;
    let mut n: usize = 0;
    while at < s.len() {
        let Some((_, end)) = known_field(s, at) else {
            return n;
        };
        at = end;
        n += 1;
    }
    n
}

// How many digits a numeral has.
pub fn digits(n: usize) -> usize
    ensures { (result ≡ length (decimal_of n)) × (result ≤ n + 1) }
{
    if n < 10 {
        return 1;
    }
    digits(n / 10) + 1
}
