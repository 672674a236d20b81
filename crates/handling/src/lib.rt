// One line: read, performed by what is known, replied, with the day's tally lent; what is known is kept true. No struct has these four, though
// contracts speak of `state_of board work tally`: document 01 lends each by itself, "on one lent board. .. Each call is lent work words of any length and
// content", "The day's tally is lent to each line's handling and brought up to date", and what is known belongs to a block of lines and not to the caller.
#![tactic(auto)]

ghost use Rattle.std.specs.Prelude.{◌≡◌, List, ℕ};
ghost use Rattle.std.specs.Option.{option_map};
ghost use Rattle.rules.specs.Runs.{handle_line, noted, shown_code};
ghost use Rattle.answers.specs.Numbers.{said};
ghost use Rattle.answers.specs.Values.{counts_of, state_of, handled_of};
ghost use Rattle.board.specs.Requests.{call_for};
ghost use Rattle.reading.specs.Reading.{kind_letter};
ghost use Rattle.handling.specs.Turns.{AnswersTo, Asks, Shows, Turns, line_call};

use answers::{Answer, Reply, Tally, replied, unread_line};
use board::{Request, perform};
use checking::{Known, assess};
use reading::{Kind, Line, read_line};
use words::held_of;

// The call that a line asks for. Z asks for none.
fn request_of(line: &Line) -> Option<Request>
    ensures { option_map call_for result ≡ line_call line.now }
{
    match line.kind {
        Kind::Open => Some(Request::Open(line.columns[0])),
        Kind::Accept => Some(Request::Accept(line.order())),
        Kind::Withdraw => Some(Request::Withdraw(line.key())),
        Kind::Start => Some(Request::Start(line.key())),
        Kind::Print => Some(Request::Print),
        Kind::Total => None,
    }
}

// The answer to a line that is read: its call's; or, to Z, that of the day's tally.
#[tactic(auto, using(crate::proofs::ReadLines::total_answered))]
fn answer_to(
    line: &Line,
    board: &mut [u16],
    work: &mut [u16],
    tally: &Tally,
    known: &mut Known,
) -> Answer
    ensures { AnswersTo line.now known.old (state_of board.old work.old tally.now) result known.new board.new work.new }
{
    match request_of(line) {
        Some(request) => perform(&request, board, work, known),
        None => tally.closing(line.columns[0], line.columns[1]),
    }
}

// "code (0 where the line has none)" (P3)
fn shown_code(line: &Line) -> u16
    ensures { result ≡ shown_code (kind_letter line.now.kind) line.now.columns }
{
    match line.kind {
        Kind::Accept | Kind::Withdraw | Kind::Start => line.key().code,
        Kind::Open | Kind::Print | Kind::Total => 0,
    }
}

// The number that the answer line shows: P shows the orders held, 0 if refused; a line that has a code the order's number, any other its first number.
fn shown_number(line: &Line, answer: Answer, board: &[u16]) -> u16
    ensures { Shows line.now answer board.now result }
{
    match line.kind {
        Kind::Accept | Kind::Withdraw | Kind::Start => line.key().number,
        Kind::Open | Kind::Total => line.columns[0],
        Kind::Print => match answer {
            Ok(_) => held_of(board),
            Err(_) => 0,
        },
    }
}

// What a line that is read does to the control total, whatever it is answered.
fn note_line(line: &Line, tally: &mut Tally)
    ensures { counts_of tally.new ≡ noted (kind_letter line.now.kind) line.now.columns (counts_of tally.old) }
{
    match line.kind {
        Kind::Accept => tally.note_order(line.key().number),
        Kind::Total => tally.restart_total(),
        Kind::Open | Kind::Withdraw | Kind::Start | Kind::Print => (),
    }
}

// A line that is read.
fn asked_line(
    line: &Line,
    board: &mut [u16],
    work: &mut [u16],
    tally: &mut Tally,
    known: &mut Known,
) -> Reply
    ensures { Asks line.now known.old (state_of board.old work.old tally.old) result known.new tally.new board.new work.new }
{
    let answer = answer_to(line, board, work, tally, known);
    let code = shown_code(line);
    let number = shown_number(line, answer, board);
    note_line(line, tally);
    replied(line.kind.letter(), code, number, answer, tally)
}

// A line, without its line feed, by what is known. The tally is brought up to date.
pub fn handle_next(
    line: &[u8],
    board: &mut [u16],
    work: &mut [u16],
    tally: &mut Tally,
    known: &mut Known,
) -> Reply
    ensures { Turns line.now known.old (state_of board.old work.old tally.old) result known.new tally.new board.new work.new }
{
    match read_line(line) {
        Ok(read) => asked_line(&read, board, work, tally, known),
        Err(why) => unread_line(why, tally),
    }
}

// A line whose board is looked at first.
#[tactic(auto, using(crate::proofs::ReadLines::line_same))]
pub fn handle_line(line: &[u8], board: &mut [u16], work: &mut [u16], tally: &mut Tally) -> Reply
    ensures { handled_of result tally.new board.new work.new ≡ handle_line line.now (state_of board.old work.old tally.old) }
{
    let mut known = assess(board, work);
    handle_next(line, board, work, tally, &mut known)
}
