// Order lines and orders give each other back: an order written and its line read, a line read and its order written.
#![tactic(auto)]

ghost use Rattle.std.specs.Prelude.{◌≡◌};
ghost use Rattle.words.specs.Carried.{key_of};
ghost use Rattle.writing.specs.Wrote.{wrote_of};
ghost use Rattle.round_trip.specs.WriteRead.{WritesReads};
ghost use Rattle.round_trip.specs.ReadWrite.{ReadsWrites, read_written};

use answers::Refusal;
use reading::{Kind, Line, read_line};
use words::Order;
use writing::write_order;

// What the line reader and the order writer answered.
#[derive(Clone, Copy, Debug, PartialEq, Eq)]
pub struct RoundTrip {
    pub line: Result<Line, Refusal>,
    pub wrote: Result<usize, Refusal>,
}

// Writes an order, and reads the line that then stands in the buffer, without its line feed: no bytes where the order was refused. What is promised speaks of
// key, count and row alone: a started order is written and read as one that is not.
#[tactic(auto, using(crate::proofs::WriteReads::reads))]
pub fn write_and_read(buffer: &mut [u8], order: Order) -> RoundTrip
    ensures { WritesReads (key_of order.key) order.count order.row buffer.old result buffer.new }
{
    let wrote = write_order(buffer, order);
    let end = wrote.unwrap_or(0).saturating_sub(1);
    let line = read_line(&buffer[..end]);
    RoundTrip { line, wrote }
}

// Writes the order of an A line, and of any other line nothing.
fn write_line(line: Result<Line, Refusal>, buffer: &mut [u8]) -> Result<usize, Refusal>
    ensures { wrote_of result buffer.new ≡ read_written line buffer.old }
{
    let line = line?;
    match line.kind {
        Kind::Accept => write_order(buffer, line.order()),
        Kind::Open | Kind::Withdraw | Kind::Start | Kind::Print | Kind::Total => Ok(0),
    }
}

// Reads a line, given without its line feed, and writes its order where it is an A line.
#[tactic(auto, using(crate::proofs::ReadWrites::rewrites))]
pub fn read_and_write(line: &[u8], buffer: &mut [u8]) -> RoundTrip
    ensures { ReadsWrites line.now buffer.old result buffer.new }
{
    let line = read_line(line);
    let wrote = write_line(line, buffer);
    RoundTrip { line, wrote }
}
