// The listing: lines out of a stream of bytes, each answered on the book and its papers at its newline, however the stream was cut.

#![tactic(auto)]

ghost use Rattle.std.specs.Prelude.{◌≡◌, [], ◌<◌, ◌≤◌, length};
ghost use Rattle.text.specs.Put.{Wrote};
ghost use Rattle.text.specs.Stream.{start, held, line_of, last_text, last_book};
ghost use Rattle.replies.specs.Print.{longest};
ghost use Rattle.office.specs.Office.{folder};
ghost use Rattle.answering.specs.Answering.{answering};
ghost use Rattle.listing.specs.Feeding.{fed_text, Feeds};

use text::Pending;

// What a feed has done: how many bytes of the piece are taken in, and where the written text ends.
#[derive(Clone, Copy)]
pub struct Fed {
    pub used: usize,
    pub end: usize,
}

// The lines of a piece where none has begun are answered where they lie, as long as there is room for one more.
fn feed_lines(
    book: &mut [u8],
    summary: &mut [u8],
    out: &mut [u8],
    at: usize,
    pending: &mut Pending,
    piece: &[u8],
) -> Fed
    requires at { at ≤ length out.old }
    requires none_begun { line_of pending.old ≡ [] }
    ensures wrote { Wrote out.old at
        (fed_text (start (folder book.old summary.old)) piece.now result.used) out.new result.end }
    ensures feeds { Feeds (start (folder book.old summary.old))
        piece.now result.used (folder book.new summary.new) (line_of pending.new) }
{
    let mut from = 0;
    let mut stop = text::line_end(piece, 0);
    let mut end = at;
    // A while: a turn takes a line of any length, as long as there is room for what it prints.
    while stop < piece.len() && replies::LONGEST <= out.len() - end {
        end = answering::answer(book, summary, out, end, &piece[from..stop]);
        from = stop + 1;
        stop = text::line_end(piece, from);
    }
    text::lengthen(pending, &piece[from..stop]);
    Fed { used: stop, end }
}

// A piece of the stream is taken in, of any size, as far as there is room for what it prints.
pub fn feed(
    book: &mut [u8],
    summary: &mut [u8],
    out: &mut [u8],
    pending: &mut Pending,
    piece: &[u8],
) -> Fed
    requires { longest ≤ length out.old }
    ensures wrote { Wrote out.old 0
        (fed_text (held (folder book.old summary.old) (line_of pending.old)) piece.now result.used) out.new result.end }
    ensures feeds { Feeds (held (folder book.old summary.old) (line_of pending.old))
        piece.now result.used (folder book.new summary.new) (line_of pending.new) }
    ensures used_nonzero { 0 < length piece.now → 0 < result.used }
{
    let stop = text::line_end(piece, 0);
    text::lengthen(pending, &piece[..stop]);
    if stop == piece.len() {
        return Fed { used: stop, end: 0 };
    }
    let end = answering::answer(book, summary, out, 0, pending.as_slice());
    pending.clear();
    let rest = stop + 1;
    let fed = feed_lines(book, summary, out, end, pending, &piece[rest..]);
    Fed {
        used: rest + fed.used,
        end: fed.end,
    }
}

// The stream has ended: a last line may lack its newline. The answer is where the written text ends.
pub fn finish(book: &mut [u8], summary: &mut [u8], out: &mut [u8], pending: &Pending) -> usize
    requires { longest ≤ length out.old }
    ensures wrote { Wrote out.old 0 (last_text answering (held (folder book.old summary.old) (line_of pending.now)))
        out.new result }
    ensures summary_after { folder book.new summary.new
        ≡ last_book answering (held (folder book.old summary.old) (line_of pending.now)) }
{
    if pending.is_empty() {
        return 0;
    }
    answering::answer(book, summary, out, 0, pending.as_slice())
}
