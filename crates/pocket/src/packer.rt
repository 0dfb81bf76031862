// Packing a table: four numbers to a byte.
ghost use Rattle.std.specs.Prelude.{◌≡◌, ◌+◌, ◌*◌, ◌<◌, ◌≤◌, length};
ghost use Rattle.pocket.specs.Pocket.{entry_of, packed_byte, pack_of};
ghost use Rattle.desk_refusals.specs.Numbers.{by_number};

use crate::POCKET_SIZE;
use desk_refusals::Refusal;
use index::TABLE_SIZE;

// The entry of a table's byte.
fn entry(byte: u8) -> u8
    ensures { (result ≡ entry_of byte) × (result ≤ 3) }
{
    if byte <= 1 {
        return byte;
    }
    if byte % 2 == 1 {
        return 2;
    }
    3
}

// The pocket's byte i: the entries of four numbers, the lowest in the lowest bits.
fn packed_byte(table: &[u8], i: usize) -> u8
    requires { 4 * i + 3 < length table.now }
    ensures { result ≡ packed_byte table.now i }
{
    let k = 4 * i;
    let a = entry(table[k]);
    let b = entry(table[k + 1]);
    let c = entry(table[k + 2]);
    let d = entry(table[k + 3]);
    a + 4 * b + 16 * c + 64 * d
}

// Packs any bytes of a table's length. Refusal 7 leaves the pocket as it was.
pub fn pack(table: &[u8], pocket: &mut [u8]) -> Result<(), Refusal>
    ensures { (by_number result ≡ (pack_of table.now pocket.old).answer) × (pocket.new ≡ (pack_of table.now pocket.old).bytes) }
{
    if table.len() != TABLE_SIZE {
        return Err(Refusal::TableLength);
    }
    if pocket.len() != POCKET_SIZE {
        return Err(Refusal::TableLength);
    }
    for i in 0..pocket.len() {
        pocket[i] = packed_byte(table, i);
    }
    Ok(())
}
