// A line of a stream that has begun.

ghost use Rattle.std.specs.Prelude.{◌≤◌};

// The bytes of a line that has begun; of a line over 64 bytes the first 65.
#[derive(Clone, Copy)]
pub struct Pending {
    pub line: [u8; 65],
    pub count: usize,
    ghost few: { count ≤ 65 },
}

impl Pending {
    ghost use Rattle.std.specs.Prelude.{◌≡◌, [], eqb, length};
    ghost use Rattle.text.specs.Stream.{line_of};

    // No line has begun.
    pub fn new() -> Self
        ensures { line_of result ≡ [] }
    {
        Pending {
            line: [0; 65],
            count: 0,
        }
    }

    // Its bytes.
    pub fn as_slice(&self) -> &[u8]
        ensures { result.now ≡ line_of self.now }
    {
        &self.line[..self.count]
    }

    // Whether no line has begun.
    pub fn is_empty(&self) -> bool
        ensures { result ≡ eqb (length (line_of self.now)) 0 }
    {
        self.count == 0
    }

    // The line has ended.
    pub fn clear(&mut self)
        ensures { line_of self.new ≡ [] }
    {
        self.count = 0;
    }
}
