// The number of a position, its pair by rows of bits: no list is built to read one pair.
ghost use Rattle.std.specs.Prelude.{◌≡◌};
ghost use Rattle.numbering.specs.Keys.{key_of};
ghost use Rattle.position.specs.Keyed.{board_of};
ghost use Rattle.position.specs.Maps.{normal_position};
ghost use Rattle.position.specs.Owned.{white_owned};

use index::key_of;
use pairs::pair_by_row;
use position::Position;

// The number of a position that meets no refusal. On any bytes it is the key of the normal position with the first
// man White's, with 65535 for kings that form no pair.
pub fn number_by_rows(p: Position) -> u32
    ensures { result ≡ key_of (board_of (normal_position (white_owned p))) }
{
    let normal = p.white_owned().normalised();
    let n = normal.position;
    key_of(n, pair_by_row(n.white_king, n.black_king))
}
