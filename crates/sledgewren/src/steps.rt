// Filling in steps: the progress as one word, and each call's answer as one word.
ghost use Rattle.std.specs.Prelude.{◌≡◌, ◌^◌, ◌<◌, ◌≤◌};
ghost use Rattle.four_men.specs.Lending.{lent};
ghost use Rattle.filling.specs.Steps.{said_as, step_as, settled_of};
ghost use Rattle.given_words.specs.Endings.{material_read};
ghost use Rattle.sledgewren.specs.StepWord.{progress_of, progress_word, end_word, said_word, step_word, start_for, step_for};
ghost use Rattle.desk_refusals.specs.Numbers.{by_number};

use desk_refusals::Refusal;
use filling::{Step, Stepped, start_with, step_with};
use given_words::material_read;
use table_theory::Progress;

fn progress_of(word: u32) -> Progress
    ensures { result ≡ progress_of word }
{
    let [stage, low, high, last] = word.to_le_bytes();
    Progress {
        stage,
        next: u16::from_le_bytes([low, high]),
        last,
    }
}

fn progress_word(p: Progress) -> u32
    ensures { result ≡ progress_word p }
{
    let next = p.next;
    let [low, high] = next.to_le_bytes();
    u32::from_le_bytes([p.stage, low, high, p.last])
}

fn end_word(f: Result<Option<u8>, Refusal>) -> u64
    ensures { (result ≡ end_word (by_number f)) × (result < 2 ^ 8) }
{
    match f {
        Err(r) => r.number() as u64,
        Ok(Some(_)) => 0,
        Ok(None) => 0,
    }
}

fn said_word(s: Stepped) -> u64
    requires { settled_of (said_as s) ≤ 3784704 }
    ensures { (result ≡ said_word (said_as s)) × (result < 2 ^ 32) }
{
    match s {
        Stepped::Settled(n) => n as u64 * 0x100,
        Stepped::Says(f) => end_word(f),
    }
}

fn step_word(s: Step) -> u64
    requires { settled_of (said_as s.said) ≤ 3784704 }
    ensures { result ≡ step_word (step_as s) }
{
    let said = s.said;
    let progress = s.progress;
    said_word(said) + u64::from(progress_word(progress)) * 0x1_0000_0000
}

// Refusals 1 and 7 leave the table as it was.
pub fn sledgewren_fill_start(ending: u32, table: &mut [u8]) -> u64
    ensures { (result ≡ step_word (start_for (material_read ending) table.old).step) × (table.new ≡ (start_for (material_read ending) table.old).bytes) }
{
    let m = material_read(ending);
    let s = start_with(m, &mut *table);
    step_word(s)
}

// The small tables' bytes are read as they stand, accepted or not. Refusals 1 and 7 leave the table and the progress
// as they were, 10 leaves the table all zero.
pub fn sledgewren_fill_step(
    ending: u32,
    progress: u32,
    small_first: &[u8],
    small_second: &[u8],
    table: &mut [u8],
) -> u64
    ensures { (result ≡ step_word (step_for (material_read ending) (progress_of progress) (lent small_first.now small_second.now) table.old).step) × (table.new ≡ (step_for (material_read ending) (progress_of progress) (lent small_first.now small_second.now) table.old).bytes) }
{
    let m = material_read(ending);
    let p = progress_of(progress);
    let s = step_with(m, p, small_first, small_second, &mut *table);
    step_word(s)
}
