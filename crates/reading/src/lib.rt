// A line from the printers: its bytes, without the line feed, as a kind and up to eleven numbers, or as refusal 1 or 2.
#![tactic(auto)]

ghost use Rattle.std.specs.Prelude.{◌≡◌, [], ◌∷◌, ◌≤◌, drop, slice_get, take};
ghost use Rattle.rules.specs.InputLines.{column_bytes, most_columns};
ghost use Rattle.rules.specs.Letters.{byte_of, letter_named};
ghost use Rattle.reading.specs.Reading.{answer_letter, kind_letter, class_of, line_of, line_order};
ghost use Rattle.reading.specs.Reader.{after_letter, past_columns, after_columns, Moves};
ghost use Rattle.reading.specs.Machine.{step_of, held_by, ended, cell_of, columns_at, gathered, narrowed};

use answers::Refusal;
use framing::COLUMN_BYTES;
use words::{Key, Order};

const MOST_COLUMNS: usize = 11;

// A customer's code and an order's number.
const KEY_COLUMNS: usize = 2;

#[derive(Clone, Copy, Debug, PartialEq, Eq)]
pub enum Kind {
    Open,
    Accept,
    Total,
    Withdraw,
    Start,
    Print,
}

impl Kind {
    // "Each letter has its own allowed count of columns". Document 01 names the form: "match on the letter byte with count ranges, each case a line kind or
    // refusal 1".
    #[tactic(auto, unfolding(rules::specs::Letters::letter_named))]
    fn of(letter: u8, count: usize) -> Option<Kind>
        ensures { result ≡ class_of (letter_named letter) count }
    {
        match (letter, count) {
            (b'S', 1) => Some(Kind::Open),
            (b'A', 2..=MOST_COLUMNS) => Some(Kind::Accept),
            (b'W', 2) => Some(Kind::Withdraw),
            (b'F', 2) => Some(Kind::Start),
            (b'P', 0) => Some(Kind::Print),
            (b'Z', 2) => Some(Kind::Total),
            _ => None,
        }
    }

    // The letter of the line's answer, as document 01 names it.
    pub fn letter(self) -> u8
        ensures { result ≡ byte_of (kind_letter self) }
    {
        match self {
            Kind::Open => b'S',
            Kind::Accept => b'A',
            Kind::Withdraw => b'W',
            Kind::Start => b'F',
            Kind::Print => b'P',
            Kind::Total => b'Z',
        }
    }
}

// A line that is read: its columns as eleven numbers and their count, 0 for each that it does not have. Its numbers are those of the line, also where a
// call could not carry them, as a ninth slot. Kind and columns stand apart, and are no enum with numbers: every kind but Print answers with its first columns.
// An array with its count, and no ArrayVec: a Line is copied, and an ArrayVec is not Copy.
#[derive(Clone, Copy, Debug, PartialEq, Eq)]
pub struct Line {
    pub kind: Kind,
    pub count: usize,
    pub columns: [u16; MOST_COLUMNS],
}

impl Line {
    // The key of the order that a line brings in or names: "a customer code as first column" (P3), and the order's number.
    pub fn key(&self) -> Key
        ensures { result ≡ (line_order self.now).key }
    {
        Key {
            code: self.columns[0],
            number: self.columns[1],
        }
    }

    // The order that a line's columns give, as it is sent: not started. Those after the number are the slots, and the first eight the row: check 8 turns a
    // ninth down. At most nine: the cast loses nothing.
    pub fn order(&self) -> Order
        ensures { result ≡ line_order self.now }
    {
        let [_code, _number, a, b, c, d, e, f, g, h, _ninth] = self.columns;
        let slots = self.count.min(MOST_COLUMNS).saturating_sub(KEY_COLUMNS);
        Order::new(self.key(), slots as u16, [a, b, c, d, e, f, g, h])
    }
}

// The letter of a line's answer, of a line that is not read too: "the line's letter (X for refusals 1 and 2)".
pub fn answer_letter(line: &Result<Line, Refusal>) -> u8
    ensures { result ≡ byte_of (answer_letter line.now) }
{
    match line {
        Ok(read) => read.kind.letter(),
        Err(_) => b'X',
    }
}

// How far the reading of a column has come. No `str::parse`: it takes a plus sign and leading zeros, and a column is "a decimal number without leading zeros
// (a lone 0 is allowed)".
#[derive(Clone, Copy)]
enum State {
    Blank,
    Zero,
    Number(u32),
}

impl State {
    // The state after one more byte, where a column may go on with it. Six digits fit a u32.
    fn step(self, byte: u8) -> Option<State>
        requires { held_by self ≤ 99999 }
        ensures { result ≡ step_of self byte }
    {
        match (self, byte) {
            (State::Blank, b' ') => Some(State::Blank),
            (State::Blank, b'0') => Some(State::Zero),
            (State::Blank, b'1'..=b'9') => Some(State::Number(u32::from(byte - b'0'))),
            (State::Number(v), b'0'..=b'9') => Some(State::Number(v * 10 + u32::from(byte - b'0'))),
            _ => None,
        }
    }

    // What a column is that ends in this state.
    fn value(self) -> Option<u32>
        ensures { result ≡ ended self }
    {
        match self {
            State::Blank => None,
            State::Zero => Some(0),
            State::Number(v) => Some(v),
        }
    }
}

#[tactic(auto, using(crate::proofs::ColumnLaws::column_reads))]
fn column_value(column: &[u8; COLUMN_BYTES]) -> Option<u32>
    ensures { result ≡ cell_of column.now }
{
    let mut state = State::Blank;
    for byte in column {
        state = state.step(*byte)?;
    }
    state.value()
}

// The numbers as words, where none is above 65,535. `values.try_map(u16::try_from).ok()` proves too, but the program takes a fifth longer on the load
// refill with it, 0.149 s and not 0.124: each number passes through two arrays of slots. After a zip with `iter_mut` nothing would be known of the words.
#[tactic(auto, using(crate::proofs::NumberLaws::narrows))]
fn narrowed(values: &[u32; MOST_COLUMNS]) -> Option<[u16; MOST_COLUMNS]>
    ensures { result ≡ narrowed values.now }
{
    let mut words = [0; MOST_COLUMNS];
    for (i, value) in values.iter().enumerate() {
        words[i] = u16::try_from(*value).ok()?;
    }
    Some(words)
}

// "The line reader borrows the line and remembers how far it has come." Document 01 names the form: "struct with a reference to the line's bytes and a
// position".
#[derive(Drop)]
struct LineReader<'a> {
    line: &'a [u8],
    at: usize,
}

impl<'a> LineReader<'a> {
    // The byte where the reader stands; it moves past it.
    fn take_letter(&mut self) -> Option<u8>
        ensures letter { result ≡ slice_get self.old.line.now self.old.at }
        ensures moved { Moves self.old self.new (after_letter self.old.line.now self.old.at) }
    {
        let letter = *self.line.get(self.at)?;
        self.at += 1;
        Some(letter)
    }

    // The column where the reader stands; it moves past it, and stays where none is.
    #[tactic(auto, using(crate::proofs::ColumnLaws::column_short))]
    fn take_column(&mut self) -> Option<u32>
        ensures value { result ≡ cell_of (take column_bytes (drop self.old.at self.old.line.now)) }
        ensures moved { Moves self.old self.new (past_columns self.old.line.now self.old.at 1) }
    {
        let column = self.line.get(self.at..)?.first_chunk()?;
        let value = column_value(column)?;
        self.at += COLUMN_BYTES;
        Some(value)
    }

    // The next `count` columns, and 0 behind them; none of them where one is no column.
    #[tactic(auto, using(crate::proofs::ColumnsLaws::gathers))]
    fn take_values(&mut self, count: usize) -> Option<[u32; MOST_COLUMNS]>
        requires { count ≤ most_columns }
        ensures values { result ≡ gathered [] (columns_at self.old.line.now self.old.at count) }
        ensures moved { Moves self.old self.new (past_columns self.old.line.now self.old.at count) }
    {
        let mut values = [0; MOST_COLUMNS];
        for value in &mut values[..count] {
            *value = self.take_column()?;
        }
        Some(values)
    }

    // The line of this letter whose columns are all that is left. The reader moves past the columns that were read: after a refusal it stands where
    // reading stopped. The form, the whole of it, comes before the numbers. Of more than 67 bytes some are left over, or they are too many columns.
    #[tactic(auto, using(crate::proofs::LineLaws::lines))]
    fn take_columns(&mut self, letter: u8) -> Result<Line, Refusal>
        ensures line { result ≡ line_of (letter ∷ drop self.old.at self.old.line.now) }
        ensures moved { Moves self.old self.new (after_columns letter self.old.line.now self.old.at) }
    {
        let left = self.line.len().saturating_sub(self.at);
        if !left.is_multiple_of(COLUMN_BYTES) {
            return Err(Refusal::Malformed);
        }
        let count = left / COLUMN_BYTES;
        let kind = Kind::of(letter, count).ok_or(Refusal::Malformed)?;
        let values = self.take_values(count).ok_or(Refusal::Malformed)?;
        let columns = narrowed(&values).ok_or(Refusal::TooLarge)?;
        Ok(Line {
            kind,
            count,
            columns,
        })
    }
}

// A line, given its bytes without the line feed.
#[tactic(auto, using(crate::proofs::LineLaws::empty_line))]
pub fn read_line(line: &[u8]) -> Result<Line, Refusal>
    ensures { result ≡ line_of line.now }
{
    let mut reader = LineReader { line, at: 0 };
    let letter = reader.take_letter().ok_or(Refusal::Malformed)?;
    reader.take_columns(letter)
}
