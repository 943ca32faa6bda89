// Little-endian numbers written to byte slices: one writer, over the type of the number, which has the width.
#![tactic(auto)]

ghost use Rattle.std.specs.Prelude.{◌≡◌, ◌≤◌, leb, length};
ghost use Rattle.number_writing.specs.Bytes.{bytes, wrote};

use number_reading::Number;

// As many bytes of x as there are places.
fn fill(s: &mut [u8], x: u64)
    ensures { s.new ≡ bytes (length s.old) x }
{
    let mut rest = x;
    for b in s {
        *b = (rest % 256) as u8;
        rest /= 256;
    }
}

// Whether there was room; without it s stays.
#[tactic(auto, unfolding(crate::specs::Bytes::wrote))]
pub fn put<N: Number>(s: &mut [u8], x: N) -> bool
    ensures { (result ≡ leb N.WIDTH (length s.old)) × (s.new ≡ wrote N.WIDTH (N.value x) s.old) }
{
    if s.len() < N::WIDTH {
        return false;
    }
    fill(&mut s[..N::WIDTH], x.wide());
    true
}
