#![tactic(auto)]

// Text in a lent buffer, one piece after another.
ghost use Rattle.std.specs.Prelude.{◌≡◌, ◌+◌, ◌≤◌, ◌++◌, length};
ghost use Rattle.text.specs.Text.{written, Wrote};
ghost use Rattle.text.specs.Decimal.{decimal};

use itoa::write_digits;

// A lent buffer, and the position in it that the next text is written at. No `PartialEq`: the library has none for `&mut [u8]`.
// No `write!`, with a `fmt::Write` of the cursor: tried, the proof did not close. It promises its text only where it answers
// `Ok`, and not that it does so where there is room, so no listing would be complete.
#[derive(Drop, Debug)]
pub struct Cursor<'a> {
    pub out: &'a mut [u8],
    pub at: usize,
}

impl<'a> Cursor<'a> {
    pub fn put_bytes(&mut self, bytes: &[u8])
        requires { self.old.at + length bytes.now ≤ length self.old.out.now }
        ensures { Wrote self.old bytes.now self.new }
    {
        let end = self.at + bytes.len();
        self.out[self.at..end].copy_from_slice(bytes);
        self.at = end;
    }

    // Writes a number in decimal digits.
    pub fn put_number(&mut self, n: u64)
        requires { self.old.at + length (decimal n) ≤ length self.old.out.now }
        ensures { Wrote self.old (decimal n) self.new }
    {
        self.at = put_digits(self.out, self.at, n);
    }

    // Writes a label and a number.
    pub fn put_field(&mut self, label: &[u8], n: u64)
        requires { self.old.at + (length label.now + length (decimal n)) ≤ length self.old.out.now }
        ensures { Wrote self.old (label.now ++ decimal n) self.new }
    {
        self.put_bytes(label);
        self.put_number(n);
    }
}

// Writes a number's digits from position `at` on, and returns the position after them. It takes no cursor and is not
// inlined, so that a cursor stays in registers and the code of a line stays short: listings are up to 9 % slower otherwise.
#[inline(never)]
fn put_digits(out: &mut [u8], at: usize, n: u64) -> usize
    requires { at + length (decimal n) ≤ length out.old }
    ensures digits { out.new ≡ written out.old at (decimal n) }
    ensures after { result ≡ at + length (decimal n) }
{
    // Most numbers of a short listing have one digit, which needs no count.
    if n < 10 {
        out[at] = 48 + n as u8;
        return at + 1;
    }
    let end = at + n.max(1).ilog10() as usize + 1;
    write_digits(n, out, end);
    end
}
