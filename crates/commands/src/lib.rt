// A line of the listing is read into a command: a verb, then numbers of exactly three digits, with single spaces.

#![tactic(auto)]

ghost use Rattle.std.specs.Prelude.{◌≡◌, ◌≤◌, ◌++◌, true, false, Some, None, MatchOption, ◌&&◌, not, ltb, leb, eqb, length};
ghost use Rattle.std.proofs.Math.Option.{none};
ghost use Rattle.tools.specs.Tests.{pick, within};
ghost use Rattle.text.specs.Digits.{numbers_at};
ghost use Rattle.commands.specs.Lines.{shaped, count_after, events, filings, questions, lists, start_of};
ghost use Rattle.commands.specs.Lines.{choose, parse_of, numbers_in, wanted_in};

// The numbers that a line lends.
mod lent;

pub use lent::Numbers;
use rules::SetupNumbers;

// What a line asks for, an event last with whether its stamp is kept. The numbers are wide, so that 256 reaches the check that refuses it.
#[derive(Clone, Copy)]
pub enum Command<'a> {
    Start(SetupNumbers, Numbers<'a>),
    Local(usize, bool),
    Send(usize, usize, bool),
    Receive(usize, usize, bool),
    Reset(usize, bool),
    Drop(usize),
    Discard(usize),
    Before(usize, usize),
    Compare(usize, usize),
    May(usize),
    Picture(Numbers<'a>),
}

// Whether a line is a word and then so many numbers.
fn is_line(line: &[u8], word: &[u8], count: usize) -> bool
    requires { count ≤ 14 }
    ensures { result ≡ shaped line.now word.now count }
{
    if line.len() != word.len() + 4 * count || !text::starts_with(line, word) {
        return false;
    }
    text::are_numbers(line, word.len(), count)
}

// The numbers of a line that is a word and then just so many of them.
fn numbers<const N: usize>(line: &[u8], word: &[u8]) -> Option<[usize; N]>
    requires { N ≤ 14 }
    ensures { MatchOption result (shaped line.now word.now N ≡ false)
        (λ ns. (shaped line.now word.now N ≡ true) × (ns ≡ numbers_at line.now (length word.now) N)) }
{
    if !is_line(line, word, N) {
        return None;
    }
    let mut list = [0; N];
    for i in 0..N {
        list[i] = text::number(line, word.len() + 4 * i);
    }
    Some(list)
}

// The numbers that stand in a line after a word, however many, where it has nothing else: no more than 14, as the word has five letters.
fn all_numbers<'a>(line: &'a [u8], word: &[u8]) -> Option<Numbers<'a>>
    requires { (length line.now ≤ 64) × (5 ≤ length word.now) }
    ensures { MatchOption result (shaped line.now word.now (count_after line.now word.now) ≡ false)
        (λ ns. (shaped line.now word.now (count_after line.now word.now) ≡ true)
        × (numbers_in ns.text.now ≡ numbers_at line.now (length word.now) (count_after line.now word.now))) }
{
    let count = line.len().saturating_sub(word.len()) / 4;
    if !is_line(line, word, count) {
        return None;
    }
    let text = &line[word.len()..];
    Some(Numbers { text })
}

// Whether D is from 2 to 8 and there are other than D limits.
fn is_miscounted(desks: usize, limits: usize) -> bool
    ensures { result ≡ (within 2 8 desks && not (eqb limits desks)) }
{
    (2..=8).contains(&desks) & (limits != desks)
}

// The start of a line's numbers: D and P are the first two, M, A, m and n the last four, the limits stand between them and stay in the
// line. None where there are fewer than six, or where the limits are miscounted.
fn start_of(given: Numbers<'_>) -> Option<Command<'_>>
    ensures { let ns = numbers_in given.entry.text.now in
        wanted_in result ≡ pick (leb 6 (length ns)) (start_of ns) none }
{
    let all = given.text;
    let limits = (all.len() / 4).checked_sub(6)?;
    let last = 8 + 4 * limits;
    let numbers = SetupNumbers {
        desks: text::number(all, 0),
        phases: text::number(all, 4),
        seat_lag: text::number(all, last),
        shelf_lag: text::number(all, last + 4),
        back: text::number(all, last + 8),
        ahead: text::number(all, last + 12),
    };
    if is_miscounted(numbers.desks, limits) {
        return None;
    }
    let text = &all[8..last];
    Some(Command::Start(numbers, Numbers { text }))
}

// A row of the definition's table is one test here, in the table's order; a line that a group does not know is left to the next. The
// verbs that take any number of numbers come last.
fn parse_lists(line: &[u8]) -> Option<Command<'_>>
    requires { length line.now ≤ 64 }
    ensures { wanted_in result ≡ choose lists line.now }
{
    if let Some(numbers) = all_numbers(line, b"start") {
        return start_of(numbers);
    }
    Some(Command::Picture(all_numbers(line, b"picture")?))
}

// The questions about two slots and may, then the lists.
fn parse_questions(line: &[u8]) -> Option<Command<'_>>
    requires { length line.now ≤ 64 }
    ensures { wanted_in result ≡ choose (questions ++ lists) line.now }
{
    if let Some(numbers) = numbers::<2>(line, b"before") {
        let [first, second] = numbers;
        return Some(Command::Before(first, second));
    }
    if let Some(numbers) = numbers::<2>(line, b"compare") {
        let [first, second] = numbers;
        return Some(Command::Compare(first, second));
    }
    if let Some(numbers) = numbers::<1>(line, b"may") {
        let [desk] = numbers;
        return Some(Command::May(desk));
    }
    parse_lists(line)
}

// The filings, then the questions.
fn parse_filings(line: &[u8]) -> Option<Command<'_>>
    requires { length line.now ≤ 64 }
    ensures { wanted_in result ≡ choose (filings ++ questions ++ lists) line.now }
{
    if let Some(numbers) = numbers::<1>(line, b"drop") {
        let [slot] = numbers;
        return Some(Command::Drop(slot));
    }
    if let Some(numbers) = numbers::<1>(line, b"discard") {
        let [place] = numbers;
        return Some(Command::Discard(place));
    }
    parse_questions(line)
}

// Whether an event's stamp is kept, by the last number of its line: 1 is yes, 0 no; any other makes no command.
fn wished(keep: usize) -> Option<bool>
    ensures { result ≡ pick (ltb 1 keep) None (Some (eqb keep 1)) }
{
    match keep {
        0 => Some(false),
        1 => Some(true),
        _ => None,
    }
}

// The four events, then the filings.
fn parse_events(line: &[u8]) -> Option<Command<'_>>
    requires { length line.now ≤ 64 }
    ensures { wanted_in result ≡ choose (events ++ filings ++ questions ++ lists) line.now }
{
    if let Some(numbers) = numbers::<2>(line, b"local") {
        let [desk, keep] = numbers;
        return Some(Command::Local(desk, wished(keep)?));
    }
    if let Some(numbers) = numbers::<3>(line, b"send") {
        let [desk, to, keep] = numbers;
        return Some(Command::Send(desk, to, wished(keep)?));
    }
    if let Some(numbers) = numbers::<3>(line, b"receive") {
        let [desk, place, keep] = numbers;
        return Some(Command::Receive(desk, place, wished(keep)?));
    }
    if let Some(numbers) = numbers::<2>(line, b"reset") {
        let [desk, keep] = numbers;
        return Some(Command::Reset(desk, wished(keep)?));
    }
    parse_filings(line)
}

// The command of a line; none of a BadLine: one over 64 bytes, or of any other shape.
#[tactic(auto, using(crate::proofs::Shapes::long_bad))]
pub fn parse(line: &[u8]) -> Option<Command<'_>>
    ensures { wanted_in result ≡ parse_of line.now }
{
    if text::LINE_MOST < line.len() {
        return None;
    }
    parse_events(line)
}
