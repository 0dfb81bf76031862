// A byte compared with all successors: the king's moves, the first man's and the second's.
ghost use Rattle.std.specs.Prelude.{◌≡◌};
ghost use Rattle.position.specs.Posed.{board_in, Complete};
ghost use Rattle.successors.specs.Successors.{bytes_in, Reaches, judged_from, king_at};

use super::quiet::{men_squares, sift_moves, sift_steps};
use movegen::Reach;
use position::{Men, Place};

// Nothing is handed over for a man without a move: as a rule one of the two has none.
pub fn judge(
    m: Men,
    q: Place,
    reach: Reach,
    byte: u16,
    table: &[u8],
    first: &[u8],
    second: &[u8],
) -> Option<Reach>
    ensures { Complete m q → Reaches m q reach → result ≡ judged_from (bytes_in m first.now second.now table.now) byte (board_in m q) (king_at q) q.first q.second }
{
    let men = men_squares(q);
    let king = sift_steps(men, m, q, reach.king, byte, table, first, second)?;
    let by_first = if reach.first == 0 {
        0
    } else {
        sift_moves(men, m, q, q.first, reach.first, byte, table, first, second)?
    };
    let by_second = if reach.second == 0 {
        0
    } else {
        sift_moves(
            men,
            m,
            q,
            q.second,
            reach.second,
            byte,
            table,
            first,
            second,
        )?
    };
    Some(Reach {
        king,
        first: by_first,
        second: by_second,
    })
}
