// Text in a lent slice: bytes and decimal numbers put at a place, one behind the other. What does not fit is left out, and the place is then past the end.
#![tactic(auto)]

ghost use Rattle.std.specs.Prelude.{[], ◌∷◌, ◌++◌};
ghost use Rattle.text_writing.specs.Decimal.{decimal};
ghost use Rattle.text_writing.specs.Puts.{Puts};

// A lent slice, and the place at which the next byte goes.
#[derive(Drop)]
pub struct Sheet<'a> {
    pub out: &'a mut [u8],
    pub at: usize,
}

impl Sheet<'_> {
    #[tactic(auto, unfolding(crate::specs::Sheet::put, crate::specs::Sheet::puts))]
    fn byte(&mut self, value: u8)
        ensures { Puts self.old self.new (value ∷ []) }
    {
        if self.at < self.out.len() {
            self.out[self.at] = value;
            self.at += 1;
        } else {
            self.at = self.out.len() + 1;
        }
    }

    pub fn words(&mut self, text: &[u8])
        ensures { Puts self.old self.new text.now }
    {
        for b in text {
            self.byte(*b);
        }
    }

    // The digits before the last come first; a number of one digit has none.
    pub fn number(&mut self, n: u64)
        ensures { Puts self.old self.new (decimal n) }
    {
        if n < 10 {
            self.byte(b'0' + n as u8);
            return;
        }
        self.number(n / 10);
        self.byte(b'0' + (n % 10) as u8);
    }

    // A word and the number that it names.
    pub fn field(&mut self, text: &[u8], n: u64)
        ensures { Puts self.old self.new (text.now ++ decimal n) }
    {
        self.words(text);
        self.number(n);
    }
}
