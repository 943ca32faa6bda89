// What the programs of cases share: printing, and an input in parts. Before each part stands its size in two bytes, the lower byte first.
#![tactic(auto)]

pub mod input;

ghost use Rattle.std.specs.Prelude.{◌<◌, ◌≡◌, ◌-◌, get_or, length};
ghost use Rattle.std.specs.Iterator.{at_most};
ghost use Rattle.case_frames.specs.Frames.{end_of, part_of, GivesPart};

// The byte at a place, 0 where there is none.
fn byte(all: &[u8], at: usize) -> usize
    ensures { (result ≡ get_or all.now at 0) × (result < 256) }
{
    usize::from(all.get(at).copied().unwrap_or(0))
}

// Where the part at a place ends, at the latest where the input does.
pub fn end(all: &[u8], at: usize) -> usize
    ensures { result ≡ end_of all.now at }
{
    if all.len() <= at {
        return all.len();
    }
    let size = 2 + byte(all, at) + 256 * byte(all, at + 1);
    at.saturating_add(size).min(all.len())
}

// The part at a place, without its size.
pub fn part(all: &[u8], at: usize) -> &[u8]
    ensures { result.now ≡ part_of all.now at }
{
    let from = at.saturating_add(2);
    all.get(from..end(all, at)).unwrap_or(&[])
}

// The parts of an input from a place on, one after the other.
#[derive(Drop)]
pub struct Framed<'a> {
    pub all: &'a [u8],
    pub at: usize,
}

pub fn parts(all: &[u8]) -> Framed<'_>
    ensures { (result.all.now ≡ all.now) × (result.at ≡ 0) }
{
    Framed { all, at: 0 }
}

impl<'a> Iterator for Framed<'a> {
    type Item = &'a [u8];

    ghost next_gives = { λ s r t. GivesPart s.all.now s.at r t.all.now t.at };

    ghost remaining = { λ s. at_most (length s.all.now - s.at) };

    fn next(&mut self) -> Option<&'a [u8]> {
        if self.all.len() <= self.at {
            return None;
        }
        let here = part(self.all, self.at);
        self.at = end(self.all, self.at);
        Some(here)
    }
}
