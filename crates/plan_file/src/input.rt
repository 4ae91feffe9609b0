// What a program has read of its input.
ghost use Rattle.std.specs.Prelude.{◌≡◌, ◌≤◌, ◌<◌, length, take};

// One byte more than an input may have. An input of this length is refused, so the rest of it need not be read.
pub const READ_MOST: usize = 65537;

// The first `count` bytes of an array were read. The array has `room` for more bytes than an input may have, READ_MOST of them
// or more: so an input that fills it is refused. (An array with a count, since there is no heap.)
#[derive(Clone, Copy, Debug, PartialEq, Eq)]
pub struct Input<'a> {
    pub array: &'a [u8],
    pub count: usize,
    ghost inside: { count ≤ length array.now },
    ghost room: { 65536 < length array.now },
}

impl<'a> Input<'a> {
    // The bytes that were read.
    pub fn bytes(&self) -> &[u8]
        ensures { result.now ≡ take self.now.count self.now.array.now }
    {
        &self.array[..self.count]
    }
}
