// Orders written and read back.
ghost use Rattle.std.specs.Prelude.{◌≡◌, ◌≤◌, ◌<◌, ◌+◌, ◌*◌, length};

use answers::Refusal;
use reading::{Kind, Line};
use round_trip::{RoundTrip, read_and_write, write_and_read};
use std::io;
use trial_kit::Tally;
use words::{Key, Order};
use writing::write_order;

// Counts of slots times numbers times lists.
const CASES: u16 = 8 * 10 * 10;

// Bytes of a buffer, and what it is filled with before an order is written.
const ROOM: usize = 72;

const FILL: u8 = 85;

// Bytes of an order line without slots, and of a column: written out and not the library's own, so that a wrong one there shows.
const FRAME: usize = 14;

const COLUMN: usize = 6;

// Seven, which has no divisor in common with the counts times the numbers: of ten lists each code comes with each count and number.
const CODES: [u16; 7] = [1, 9, 10, 99, 100, 998, 999];

// No customer's.
const NO_CODES: [u16; 3] = [0, 1000, 65535];

const NUMBERS: [u16; 10] = [1, 9, 10, 99, 100, 999, 1000, 9999, 10000, 65535];

// Times this, the case's number is scattered over 16 bits.
const SPREAD: u16 = 40503;

// The slots of a list: the lowest, the highest, or one out of each 128, by this number.
#[derive(Clone, Copy)]
enum List {
    Lowest,
    Highest,
    Scattered(u16),
}

impl List {
    // Of ten lists one is of the lowest slots, one of the highest, and eight are scattered.
    fn of_case(t: u16) -> List {
        match t / 80 {
            0 => List::Lowest,
            1 => List::Highest,
            _ => List::Scattered(t.wrapping_mul(SPREAD)),
        }
    }

    // Slot j, where it has so many slots.
    fn slot(self, count: u16, j: u16) -> u16
        requires list_size { count ≤ 8 }
        requires within { j < count }
    {
        match self {
            List::Lowest => j + 1,
            List::Highest => 1025 - count + j,
            List::Scattered(x) => 128 * j + 1 + x / (j + 1) % 128,
        }
    }
}

// Case t: each count with each number, and with each list, and with each code. It goes by one number, as a scattered list is made of it.
fn order(t: u16) -> Order
    ensures { result.count ≤ 8 }
{
    let count = t % 8 + 1;
    let list = List::of_case(t);
    let mut row = [0; 8];
    // By an index: with `zip`, which was tried, it was not proved that j is below the count.
    for j in 0..count {
        row[usize::from(j)] = list.slot(count, j);
    }
    let key = Key {
        code: CODES[usize::from(t % 7)],
        number: NUMBERS[usize::from(t / 8 % 10)],
    };
    Order::new(key, count, row)
}

// Bytes of the order's line with its feed.
fn line_size(order: &Order) -> usize
    ensures { result ≡ 14 + 6 * order.now.count }
{
    FRAME + COLUMN * usize::from(order.count)
}

// As many bytes as the order's count says are written, and what is read is its A line: its code, its number, its slots, and nothing.
fn trip_of(order: &Order) -> RoundTrip {
    let mut columns = [0; 11];
    columns[0] = order.key.code;
    columns[1] = order.key.number;
    columns[2..10].copy_from_slice(&order.row);
    RoundTrip {
        line: Ok(Line {
            kind: Kind::Accept,
            count: usize::from(order.count) + 2,
            columns,
        }),
        wrote: Ok(line_size(order)),
    }
}

// The line in the buffer is read and written again.
fn is_written_again(out: &[u8; ROOM], line: &[u8], order: &Order) -> bool {
    let mut second = [FILL; ROOM];
    read_and_write(line, &mut second) == trip_of(order) && second == *out
}

// And not where there is one byte too few for it: nothing is written then.
fn is_short_again(line: &[u8]) -> bool
    requires { length line.now ≤ 72 }
{
    let mut second = [FILL; ROOM];
    let trip = read_and_write(line, &mut second[..line.len()]);
    trip.wrote == Err(Refusal::Short) && second == [FILL; ROOM]
}

// The order is written and read back, and then its line. Room to spare stays as it was. (An `Order` is the library's and has any count: so it is asked
// here and below that these have at most eight slots.)
fn is_written(order: &Order) -> bool
    requires { order.now.count ≤ 8 }
{
    let mut out = [FILL; ROOM];
    let trip = write_and_read(&mut out, *order);
    let size = line_size(order);
    let line = &out[..size - 1];
    trip == trip_of(order)
        && out[size - 1] == b'\n'
        && out[size..].iter().all(|byte| *byte == FILL)
        && is_written_again(&out, line, order)
        && is_short_again(line)
}

// The writer refuses the order with so many bytes of room, and writes nothing.
fn is_refused(order: &Order, room: usize, why: Refusal) -> bool
    requires { room ≤ 72 }
{
    let mut out = [FILL; ROOM];
    write_order(&mut out[..room], *order) == Err(why) && out == [FILL; ROOM]
}

// Such a code is refused, before all else that is wrong: the number, the count, the room.
fn is_no_code(order: &Order, code: u16) -> bool
    requires { order.now.count ≤ 8 }
{
    let strange = Order {
        key: Key { code, ..order.key },
        ..*order
    };
    let wrong = Order {
        key: Key { code, number: 0 },
        count: 9,
        ..*order
    };
    is_refused(&strange, ROOM, Refusal::BadCode)
        && is_refused(&strange, line_size(order) - 1, Refusal::BadCode)
        && is_refused(&wrong, 0, Refusal::BadCode)
}

// One byte too few, number 0, no slot, nine slots and a code of no customer are refused.
fn is_refused_rightly(order: &Order) -> bool
    requires { order.now.count ≤ 8 }
{
    let unnamed = Order {
        key: Key {
            number: 0,
            ..order.key
        },
        ..*order
    };
    let none = Order { count: 0, ..*order };
    let nine = Order { count: 9, ..*order };
    is_refused(order, line_size(order) - 1, Refusal::Short)
        && is_refused(&unnamed, ROOM, Refusal::NumberZero)
        && is_refused(&none, ROOM, Refusal::BadCount)
        && is_refused(&nine, ROOM, Refusal::BadCount)
        && NO_CODES.iter().all(|code| is_no_code(order, *code))
}

pub fn run(rt: &impl Print) -> io::Result<()> {
    let mut tally = Tally::default();
    for t in 0..CASES {
        tally.next_case();
        let order = order(t);
        tally.check(rt, 'w', is_written(&order))?;
        tally.check(rt, 'n', is_refused_rightly(&order))?;
    }
    print!(rt; "orders written and read back")?;
    tally.tell(rt)
}
