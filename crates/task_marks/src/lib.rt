// The outcomes of a task's last K jobs as marks in a 64-bit word: the newest in bit 0, 1 for a miss.
#![tactic(auto)]

pub mod counting;

ghost use Rattle.std.specs.Prelude.{◌≡◌, ◌<◌, ◌^◌};
ghost use Rattle.std.specs.Int.Count.{ones};
ghost use Rattle.laws.specs.Numbers.{one_if};
ghost use Rattle.task_marks.specs.Marks.{word_places, kept_of, pushed};

use counting::one_if;

// The marks that a word has room for.
const WORD_PLACES: u8 = 64;

// How many of the old marks stay before a new one comes: K - 1, as far as the word has room.
fn kept(k: u8) -> u32
    ensures { (result ≡ kept_of k) × (result < word_places) }
{
    u32::from(k.min(WORD_PLACES).saturating_sub(1))
}

fn power(e: u32) -> u64
    requires { e < word_places }
    ensures { result ≡ 2 ^ e }
{
    1u64 << e
}

pub fn push(marks: u64, k: u8, miss: bool) -> u64
    ensures { result ≡ pushed k marks (one_if miss) }
{
    (marks % power(kept(k))) * 2 + one_if(miss)
}

pub fn misses_in(marks: u64) -> u32
    ensures { result ≡ ones marks }
{
    marks.count_ones()
}
