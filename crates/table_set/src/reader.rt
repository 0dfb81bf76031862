// Reading a set: whether it is right, where an ending's table starts, and that table's part.
ghost use Rattle.std.specs.Prelude.{◌≡◌, ◌+◌, ◌≤◌, length};
ghost use Rattle.sets.specs.Answers.{right_entry, right_set, find_of, part_of};
ghost use Rattle.desk_refusals.specs.Numbers.{by_number};

use super::TABLE_SIZE;
use super::words::word;
use desk_refusals::Refusal;

// Whether the entry at a place is the one that the rules give: a code of at least `least`, the offset, a table's length.
#[tactic(auto, unfolding(sets::specs::Answers::right_entry))]
fn is_entry(set: &[u8], at: usize, least: usize, offset: usize) -> bool
    requires { at + 12 ≤ length set.now }
    ensures { result ≡ right_entry set.now at least offset }
{
    let code = word(set, at);
    (least <= code)
        & ((code < 4) & ((word(set, at + 4) == offset) & (word(set, at + 8) == TABLE_SIZE)))
}

// Whether the bytes are a set: the header that the rules give for its count and codes, and the length that it says.
pub fn is_set(set: &[u8]) -> bool
    ensures { result ≡ right_set set.now }
{
    if set.len() < 4 {
        return false;
    }
    let n = word(set, 0);
    let first = 4 + 12 * n;
    if set.len() != first + TABLE_SIZE * n {
        return false;
    }
    let mut least = 0;
    for k in 0..n {
        let at = 4 + 12 * k;
        if !is_entry(set, at, least, first + TABLE_SIZE * k) {
            return false;
        }
        least = word(set, at) + 1;
    }
    true
}

// Where the ending's table starts. Refusal 1 for a code above 3, 14 for bytes that are no set, 15 where the set lacks the ending.
pub fn find(set: &[u8], code: u8) -> Result<u32, Refusal>
    ensures { by_number result ≡ find_of set.now code }
{
    if 3 < code {
        return Err(Refusal::BadMan);
    }
    if !is_set(set) {
        return Err(Refusal::WrongSet);
    }
    let wanted = usize::from(code);
    let n = word(set, 0);
    let first = 4 + 12 * n;
    for k in 0..n {
        if word(set, 4 + 12 * k) == wanted {
            return Ok((first + TABLE_SIZE * k) as u32);
        }
    }
    Err(Refusal::NotInSet)
}

// The very part of the set that holds the ending's table; an empty part where `find` refuses.
pub fn part(set: &[u8], code: u8) -> &[u8]
    ensures { result.now ≡ part_of set.now code }
{
    let found = find(set, code);
    match found {
        Ok(offset) => {
            let at = offset as usize;
            let end = at + TABLE_SIZE;
            &set[at..end]
        },
        Err(_) => &set[0..0],
    }
}
