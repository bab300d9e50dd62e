// A table copied to a lent buffer, which later calls are lent.
ghost use Rattle.std.specs.Prelude.{◌≡◌, length};
ghost use Rattle.validation.specs.Loading.{load_number, load_after};

use crate::read::{TABLE_BYTES, read_table};
use buffer::put;

// 37 where the table is malformed or the buffer is too short, 38 where a mark breaks a condition; else 0, and the table lies at the
// buffer's start.
pub fn load(table: &[u8], buffer: &mut [u8]) -> u32
    ensures { (result ≡ load_number table.now (length buffer.old)) × (buffer.new ≡ load_after table.now buffer.old) }
{
    let Some((_, sound)) = read_table(table, 1) else {
        return 37;
    };
    if buffer.len() < TABLE_BYTES {
        return 37;
    }
    if sound {
        put(buffer, 0, table);
        return 0;
    }
    38
}
