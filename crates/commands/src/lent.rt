// The numbers at the end of a line, which stay in it until they are wanted as a list.

ghost use Rattle.std.specs.Prelude.{◌≡◌, ◌≤◌, length};

use arrayvec::ArrayVec;

// The numbers as they stand in a line: a space and three digits each, no more than 14 in 64 bytes.
#[derive(Clone, Copy)]
pub struct Numbers<'a> {
    pub text: &'a [u8],
    ghost few: { length text.now ≤ 56 },
}

impl Numbers<'_> {
    ghost use Rattle.commands.specs.Lines.{numbers_in};

    // The limits of a start or the slots of a picture, each as wide as it was given.
    pub fn list(self) -> ArrayVec<usize, 14>
        ensures { result.items ≡ numbers_in self.entry.text.now }
    {
        let mut list = ArrayVec::new();
        for i in 0..self.text.len() / 4 {
            list.push(text::number(self.text, 4 * i));
        }
        list
    }
}
