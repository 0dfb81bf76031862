// A man's moves that take none, where nothing is exchanged: one place in the table for each target, at equal steps from
// a base. All others are looked at one by one (`sift_each`).
ghost use Rattle.std.specs.Prelude.{◌≡◌, true, ◌^◌, ◌<◌};
ghost use Rattle.board.specs.Sets.{set_of};
ghost use Rattle.position.specs.Posed.{board_in, Complete};
ghost use Rattle.successors.specs.Successors.{bytes_in, sifted_by};
ghost use Rattle.successors.specs.Quiet.{of_man, quiet_to, plain_for, base_for, scale_for};

use super::Frame;
use super::after::read_at;
use super::bases::{base_of_first, base_of_one, base_of_second, spot};
use super::framing::frame_for;
use super::sifting::{sift, sift_each};
use index::alike;
use position::{Men, Place, other};

// Whether neither the kings nor the men's likeness exchange anything.
fn is_plain(m: Men, f: Frame) -> bool
    ensures { result ≡ plain_for m f }
{
    (f.exchange == 0) & !alike(m)
}

// Where the bytes of the man on a square begin, and how far apart they lie.
fn base_for(m: Men, q: Place, f: Frame, from: u8) -> usize
    ensures { (result ≡ base_for m q f from) × (result < 2 ^ 48) }
{
    if 4 <= m.second {
        return base_of_one(f);
    }
    if q.first == from {
        return base_of_first(f, q.second);
    }
    base_of_second(f, q.first)
}

fn scale_for(m: Men, q: Place, from: u8) -> u8
    ensures { result ≡ scale_for m q from }
{
    if 4 <= m.second {
        return 1;
    }
    if q.first == from { 64 } else { 1 }
}

// The moves of a man that take none.
pub fn sift_man(
    m: Men,
    q: Place,
    from: u8,
    targets: u64,
    byte: u16,
    table: &[u8],
    first: &[u8],
    second: &[u8],
) -> Option<u64>
    ensures { Complete m q → targets ≡ set_of (quiet_to m q from) → of_man q from ≡ true → result ≡ sifted_by (bytes_in m first.now second.now table.now) byte (board_in m q) from (quiet_to m q from) }
{
    let f = frame_for(other(q.side), q.white, q.black);
    if is_plain(m, f) {
        let base = base_for(m, q, f, from);
        let scale = scale_for(m, q, from);
        return sift(
            targets,
            byte,
            |to| read_at(table, spot(base, f.flip, scale, to)),
        );
    }
    sift_each(m, q, from, targets, byte, table, first, second)
}
