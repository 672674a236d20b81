// The script's lines.
use crate::bench::{Bench, Expected};
use board::Request;
use std::{array, io};
use trial_kit::{EXPECTED, places, word_at};
use words::{Key, Order};

// Places of a line's numbers: the first number has place 0, the first behind the arrow place 32. A list of up to 46 blocked slots is compared with places
// from 34 on: those not given are 0.
const PLACES: usize = 80;

// Code and number.
fn key(asked: &[u16]) -> Key {
    Key {
        code: word_at(asked, 0),
        number: word_at(asked, 1),
    }
}

fn order(asked: &[u16]) -> Order {
    let row = array::from_fn(|j| word_at(asked, 3 + j));
    Order::new(key(asked), word_at(asked, 2), row)
}

// An order that comes with a slot in which it stays: a caller may send that, and it counts for nothing.
fn marked(asked: &[u16]) -> Order {
    match asked.split_first() {
        Some((s, rest)) => Order {
            fixed: *s,
            ..order(rest)
        },
        None => order(asked),
    }
}

// What the letter says, with the numbers in these places, which end there. A line that is not understood is wrong. The letters are the script's (main.rt):
// matched as they come, and kept nowhere.
fn command(
    rt: &impl Print,
    letter: u8,
    asked: &[u16; PLACES],
    end: usize,
    bench: &mut Bench,
) -> io::Result<()> {
    let first = asked[0];
    let expected = &asked[EXPECTED..];
    let answer = Expected::of(expected);
    match letter {
        b'l' => bench.lend(asked),
        b'g' => bench.given(&asked[..end.min(PLACES)]),
        b'z' => bench.zero(first),
        b's' => bench.slot(asked),
        b'h' => bench.held(first),
        b'o' => bench.open(rt, first, &answer)?,
        b'a' => bench.call(rt, &Request::Accept(order(asked)), &answer)?,
        b'm' => bench.call(rt, &Request::Accept(marked(asked)), &answer)?,
        b'w' => bench.call(rt, &Request::Withdraw(key(asked)), &answer)?,
        b'f' => bench.call(rt, &Request::Start(key(asked)), &answer)?,
        b'p' => bench.call(rt, &Request::Print, &answer)?,
        b'c' => bench.check(rt, word_at(expected, 0) == 1)?,
        b'b' => bench.list(rt, first, word_at(expected, 0))?,
        0 | b'#' => {}
        _ => bench.tally.check(rt, '?', false)?,
    }
    Ok(())
}

// One line.
pub fn perform(rt: &impl Print, line: &[u8], bench: &mut Bench) -> io::Result<()> {
    bench.tally.next_case();
    let Some((letter, rest)) = line.split_first() else {
        return Ok(());
    };
    if *letter == b'=' {
        rt.write_all(rest)?;
        return bench.tally.tell(rt);
    }
    let mut found = [0; PLACES];
    let end = places(rest, &mut found);
    command(rt, *letter, &found, end, bench)
}
