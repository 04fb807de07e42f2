// Words, digits, lines and streams of bytes: found in lent slices, or written into them from a place on.

#![tactic(auto)]

ghost use Rattle.std.specs.Prelude.{◌≡◌, [], ◌∷◌, ◌++◌, ◌+◌, ◌*◌, ◌-◌, ◌<◌, ◌≤◌, length, take};
ghost use Rattle.tools.specs.Tests.{all_below};
ghost use Rattle.text.specs.Words.{opens};
ghost use Rattle.text.specs.Digits.{is_number, number_at};
ghost use Rattle.text.specs.Put.{Wrote, three};
ghost use Rattle.text.specs.Stream.{Ends, most, line_of};

mod begun;

pub use begun::Pending;

// A line is at most 64 bytes long; one byte more tells that it is longer.
pub const LINE_MOST: usize = 64;

// Whether the bytes begin with a word.
pub fn starts_with(s: &[u8], word: &[u8]) -> bool
    requires { length word.now ≤ length s.now }
    ensures { result ≡ opens s.now word.now }
{
    s.starts_with(word)
}

// Whether a space and three digits stand from a place on.
fn is_number(line: &[u8], at: usize) -> bool
    requires { at + 4 ≤ length line.now }
    ensures { result ≡ is_number line.now at }
{
    (line[at] == b' ')
        & (line[at + 1].is_ascii_digit()
            & (line[at + 2].is_ascii_digit() & line[at + 3].is_ascii_digit()))
}

// What a digit counts; 0 for a byte below the digits.
fn worth(b: u8) -> usize
    ensures { (result ≡ b - 48) × (result ≤ 255) }
{
    usize::from(b.saturating_sub(b'0'))
}

// The number whose digits stand after a place.
pub fn number(line: &[u8], at: usize) -> usize
    requires { at + 4 ≤ length line.now }
    ensures { result ≡ number_at line.now at }
{
    100 * worth(line[at + 1]) + 10 * worth(line[at + 2]) + worth(line[at + 3])
}

// Whether numbers of exactly three digits, with single spaces, stand one after the other from a place on.
pub fn are_numbers(line: &[u8], from: usize, n: usize) -> bool
    requires { (from + 4 * n ≤ length line.now) × (n ≤ 14) }
    ensures { result ≡ all_below n (λ i. is_number line.now (from + 4 * i)) }
{
    (0..n).all(|i| is_number(line, from + 4 * i))
}

// The place of the first newline from a place on; the end where there is none.
pub fn line_end(s: &[u8], from: usize) -> usize
    requires { from ≤ length s.now }
    ensures { Ends s.now from result }
{
    let rest = &s[from..];
    from + rest.iter().position(|b| *b == b'\n').unwrap_or(rest.len())
}

// The line that has begun goes on with more bytes.
pub fn lengthen(line: &mut Pending, more: &[u8])
    ensures { line_of line.new ≡ take most (line_of line.old ++ more.now) }
{
    let room = line.line.len() - line.count;
    let part = &more[..more.len().min(room)];
    let end = line.count + part.len();
    line.line[line.count..end].copy_from_slice(part);
    line.count = end;
}

// A text is written; the answer is the place after it.
pub fn put_text(out: &mut [u8], at: usize, text: &[u8]) -> usize
    requires { at + length text.now ≤ length out.old }
    ensures { Wrote out.old at text.now out.new result }
{
    let end = at + text.len();
    out[at..end].copy_from_slice(text);
    end
}

// A byte is written; the answer is the place after it.
pub fn put_byte(out: &mut [u8], at: usize, b: u8) -> usize
    requires { at < length out.old }
    ensures { Wrote out.old at (b ∷ []) out.new result }
{
    out[at] = b;
    at + 1
}

// A number is written in three digits; the answer is the place after them.
pub fn put_three(out: &mut [u8], at: usize, n: u8) -> usize
    requires { at + 3 ≤ length out.old }
    ensures { Wrote out.old at (three n) out.new result }
{
    out[at] = b'0' + n / 100;
    out[at + 1] = b'0' + n / 10 % 10;
    out[at + 2] = b'0' + n % 10;
    at + 3
}
