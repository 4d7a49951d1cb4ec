// Bytes, words and numbers in base ten, written one behind another into a lent buffer.
#![tactic(auto)]

ghost use Rattle.std.specs.Prelude.{◌≡◌, [], ◌∷◌, ◌++◌, ◌≤◌, length};
ghost use Rattle.text.specs.Decimal.{digits_of};
ghost use Rattle.writer.specs.Code.Written.{Begun, Room, Wrote};

// A lent buffer, and the place in it where the next piece goes.
#[derive(Drop)]
pub struct Writer<'a> {
    out: &'a mut [u8],
    pub at: usize,
}

impl<'a> Writer<'a> {
    pub fn new(out: &'a mut [u8]) -> Writer<'a>
        ensures same { result.out.ghost_name ≡ out.entry.ghost_name }
        ensures begun { Begun out.old result }
    {
        Writer { out, at: 0 }
    }

    // One byte.
    fn byte(&mut self, b: u8)
        requires { Room (b ∷ []) self.old }
        ensures { Wrote (b ∷ []) self.old self.new }
    {
        self.out[self.at] = b;
        self.at += 1;
    }

    // A word, byte for byte.
    fn word(&mut self, word: &[u8])
        requires { Room word.now self.old }
        ensures { Wrote word.now self.old self.new }
    {
        let next = self.at + word.len();
        // Kept: no `copy_from_slice`, for which the archive would ask its linker for memmove.
        for (i, place) in self.out[self.at..next].iter_mut().enumerate() {
            *place = word[i];
        }
        self.at = next;
    }

    // A number's digits, the last one first.
    fn number(&mut self, n: u64)
        requires { Room (digits_of n) self.old }
        ensures { Wrote (digits_of n) self.old self.new }
    {
        let next = self.at + digit_count(n);
        let mut rest = n;
        let mut i = next - 1;
        while 10 <= rest {
            self.out[i] = (48 + rest % 10) as u8;
            rest = rest / 10;
            i -= 1;
        }
        self.out[i] = (48 + rest) as u8;
        self.at = next;
    }

    // A word and the byte behind it.
    pub fn word_field(&mut self, word: &[u8], end: u8)
        requires { Room (word.now ++ end ∷ []) self.old }
        ensures { Wrote (word.now ++ end ∷ []) self.old self.new }
    {
        self.word(word);
        self.byte(end);
    }

    // A number and the byte behind it.
    pub fn number_field(&mut self, n: u64, end: u8)
        requires { Room (digits_of n ++ end ∷ []) self.old }
        ensures { Wrote (digits_of n ++ end ∷ []) self.old self.new }
    {
        self.number(n);
        self.byte(end);
    }
}

// How many digits a number has.
pub fn digit_count(n: u64) -> usize
    ensures { (result ≡ length (digits_of n)) × (result ≤ 20) }
{
    let mut rest = n;
    let mut k = 1;
    while 10 <= rest {
        rest /= 10;
        k += 1;
    }
    k
}
