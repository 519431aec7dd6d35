// Pieces of text put into a lent buffer, one after the other. A place past its end takes no byte and is counted all the same, so that a text is measured by
// being put into an empty buffer.
ghost use Rattle.std.specs.Prelude.{◌≡◌, [], ◌∷◌, ◌+◌, ◌≤◌, ◌<◌, length, IsTrue};
ghost use Rattle.framelisting.specs.Put.{Countable, Put};
ghost use Rattle.framelisting.specs.Puts.{Puts};
ghost use Rattle.framelisting.specs.Decimal.{decimal};

// A lent buffer, and the place after what has been put. What may be put (`Countable`) is of the piece, so that no type of the buffer can hold it.
#[derive(Drop)]
pub struct Text<'a> {
    pub buffer: &'a mut [u8],
    pub at: usize,
}

impl<'a> Text<'a> {
    // Puts one byte.
    pub fn put(&mut self, byte: u8)
        requires { Countable self.old.at (byte ∷ []) }
        ensures { Puts self.old (byte ∷ []) self.new }
    {
        if self.at < self.buffer.len() {
            self.buffer[self.at] = byte;
        }
        self.at += 1;
    }

    // Puts some bytes.
    pub fn put_bytes(&mut self, bytes: &[u8])
        requires { Countable self.old.at bytes.now }
        ensures { Puts self.old bytes.now self.new }
    {
        for byte in bytes {
            self.put(*byte);
        }
    }

    // Puts one byte at a place that the buffer has: `put` without its test, for numbers and runs where there is room.
    pub fn put_inside(&mut self, byte: u8)
        requires { self.old.at < length self.old.buffer.now }
        ensures { Puts self.old (byte ∷ []) self.new }
    {
        self.buffer[self.at] = byte;
        self.at += 1;
    }

    // Whether the buffer has room for so many bytes more.
    pub fn has_room(&self, bytes: usize) -> bool
        ensures { IsTrue result → self.now.at + bytes ≤ length self.now.buffer.now }
    {
        self.at <= self.buffer.len() && bytes <= self.buffer.len() - self.at
    }

    // Puts a number in decimal. A number of up to three digits is put at once where the buffer has room for three.
    // By hand: a place past the buffer's end is counted and takes no byte, which no `Write` of the library does.
    pub fn put_number(&mut self, number: usize)
        requires { Countable self.old.at (decimal number) }
        ensures { Puts self.old (decimal number) self.new }
    {
        if number < 1000 && self.has_room(3) {
            self.put_small(number);
        } else {
            self.at = put_digits(self.buffer, self.at, number);
        }
    }

    // Puts a number of up to three digits where the buffer has room for three.
    pub fn put_small(&mut self, number: usize)
        requires { (number < 1000) × (self.old.at + 3 ≤ length self.old.buffer.now) }
        ensures { Puts self.old (decimal number) self.new }
    {
        if number < 10 {
            self.put_inside(digit(number));
        } else if number < 100 {
            self.put_inside(digit(number / 10));
            self.put_inside(digit(number % 10));
        } else {
            self.put_inside(digit(number / 100));
            self.put_inside(digit(number / 10 % 10));
            self.put_inside(digit(number % 10));
        }
    }
}

// A digit as a byte; below 10, so that `try_from` would have a branch that is never taken.
fn digit(number: usize) -> u8
    requires { number < 10 }
    ensures { result ≡ 48 + number }
{
    b'0' + number as u8
}

// Puts a number of any length, digit by digit, from a place on, and answers the place after it. A recursion through `&mut self` would keep every text's place in memory.
fn put_digits(buffer: &mut [u8], at: usize, number: usize) -> usize
    requires { Countable at (decimal number) }
    ensures { Put buffer.old at (decimal number) result buffer.new }
{
    let digit = b'0' + (number % 10) as u8;
    if number < 10 {
        let mut text = Text { buffer, at };
        text.put(digit);
        return text.at;
    }
    let next = put_digits(buffer, at, number / 10);
    let mut text = Text { buffer, at: next };
    text.put(digit);
    text.at
}
