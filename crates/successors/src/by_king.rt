// A king's moves that take no man: his squares' numbers while all other pieces stand still.
ghost use Rattle.std.specs.Prelude.{◌≡◌, List, ℕ};
ghost use Rattle.board.specs.Sets.{set_of};
ghost use Rattle.position.specs.Posed.{board_in, Complete};
ghost use Rattle.successors.specs.Successors.{bytes_in, sifted_by, king_at};
ghost use Rattle.successors.specs.Quiet.{quiet_to};

use super::after::read_at;
use super::sifting::sift;
use index::{still_king, still_number};
use position::{Men, Place, other};

// The moves of the king of the side to move that take no man.
pub fn sift_king(m: Men, q: Place, targets: u64, byte: u16, table: &[u8]) -> Option<u64>
    ensures { Complete m q → targets ≡ set_of (quiet_to m q (king_at q)) → (first second : List ℕ) → result ≡ sifted_by (bytes_in m first second table.now) byte (board_in m q) (king_at q) (quiet_to m q (king_at q)) }
{
    let side = other(q.side);
    let others = still_king(m, q.side, q.white, q.black, q.first, q.second);
    sift(
        targets,
        byte,
        |to| read_at(table, still_number(others, side, to)),
    )
}
