// Little-endian numbers read from byte slices: one reader, over the type of the number, which has the width.
#![tactic(auto)]

ghost use Rattle.std.specs.Prelude.{ℕ, ◌≡◌, ◌≤◌, ◌<◌, ◌%◌, ◌^◌, length, take};
ghost use Rattle.std.proofs.Common.{arith};
ghost use Rattle.number_reading.specs.Words.{number};

// An unsigned number that stands in bytes, at most 8 of them.
pub trait Number: Copy {
    ghost WIDTH: { ℕ };

    ghost value: { Self → ℕ };

    // Its bytes.
    const WIDTH: usize;

    // The number, or what of it the type has bytes for.
    fn narrow(x: u64) -> Self
        ensures { value result ≡ x % 256 ^ WIDTH };

    fn wide(self) -> u64
        ensures { result ≡ value self };

    ghost within_eight: { WIDTH ≤ 8 };
}

impl Number for u32 {
    ghost WIDTH = { 4 };

    ghost value = { λ x. x };

    const WIDTH: usize = 4;

    fn narrow(x: u64) -> u32 {
        (x % 4294967296) as u32
    }

    fn wide(self) -> u64 {
        u64::from(self)
    }

    ghost within_eight = { omega arith };
}

impl Number for u64 {
    ghost WIDTH = { 8 };

    ghost value = { λ x. x };

    const WIDTH: usize = 8;

    fn narrow(x: u64) -> u64 {
        x
    }

    fn wide(self) -> u64 {
        self
    }

    ghost within_eight = { omega arith };
}

// The number that the bytes spell.
fn spelled(s: &[u8]) -> u64
    requires { length s.now ≤ 8 }
    ensures { (result ≡ number s.now) × (result < 256 ^ length s.now) }
{
    let mut x: u64 = 0;
    for b in s.iter().rev() {
        x = x * 256 + u64::from(*b);
    }
    x
}

// The number at the front; a byte that is not there counts as 0.
pub fn get<N: Number>(s: &[u8]) -> N
    ensures { N.value result ≡ number (take N.WIDTH s.now) }
{
    let n = N::WIDTH.min(s.len());
    N::narrow(spelled(&s[..n]))
}
