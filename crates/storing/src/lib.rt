// Orders and numbers into lent words. Every function is total: a store to a word that the buffer does not have does nothing, as the definitions
// `set` and `sets` say.
#![tactic(auto)]

ghost use Rattle.std.specs.Prelude.{◌≡◌, set, replicate, take};
ghost use Rattle.std.proofs.lemmas.List.Edits.{sets};
ghost use Rattle.rules.specs.Layout.{
  size_word,
  held_word,
  base,
  label_word,
  count_word,
  row8,
  slot_record,
  free_slot,
};
ghost use Rattle.words.specs.Carried.{carried, carried_at};

use std::array;
use words::{
    COUNT, HELD, Key, LABEL, MOST_CHOICES, NO_SLOT, Order, SIZE, SLOT_WORDS, order_at, start_of,
};

// The row with 0 beyond the count. By a product: with a branch for each choice, or a `fill`, a turn of the search takes longer.
fn padded(order: &Order) -> [u16; MOST_CHOICES]
    ensures { result ≡ row8 (carried order.now).list }
{
    let count = order.list().len();
    array::from_fn(|k| order.row[k] * u16::from(k < count))
}

// The words of a slot that holds the order. Its list is written whole, whichever slots are open to it.
fn record_of(order: &Order, label: u16) -> [u16; SLOT_WORDS]
    ensures { result ≡ slot_record (carried order.now) label }
{
    let Key { code, number } = order.key;
    let [a, b, c, d, e, f, g, h] = padded(order);
    [
        code,
        number,
        label,
        order.count_word(),
        a,
        b,
        c,
        d,
        e,
        f,
        g,
        h,
    ]
}

// The words of slot s become these. Cut by indices here and below: after the loan that a slice's `get_mut` gives, the check knows its length alone.
fn put_record(board: &mut [u16], s: u16, contents: &[u16; SLOT_WORDS])
    ensures { board.new ≡ sets board.old (base s) contents.now }
{
    let at = start_of(s);
    if at + SLOT_WORDS <= board.len() {
        board[at..at + SLOT_WORDS].copy_from_slice(contents);
    } else if at < board.len() {
        let there = board.len() - at;
        board[at..].copy_from_slice(&contents[..there]);
    }
}

// The order goes into slot s, which gets this label, and becomes what stood there: so the row of the one that is displaced is copied once, from the board to
// where the next turn of the search reads it. Where all the words are there and the order is not started, as mostly in the search, what stands before the
// row and the row are stored by themselves, and the count word is the count: a record copied whole, or a mark that may be or not be, makes a turn longer.
// Three words and then the count, since four are stored as one number, and the label, which the next turn mostly reads, waits until that is put together.
// (At most eight: the cast loses nothing.)
pub fn displace(board: &mut [u16], s: u16, label: u16, order: &mut Order)
    ensures left { order.new ≡ carried_at board.old s }
    ensures stored { board.new ≡ sets board.old (base s) (slot_record (carried order.old) label) }
{
    let start = start_of(s);
    let end = start + SLOT_WORDS;
    if order.fixed == NO_SLOT && end <= board.len() {
        let Key { code, number } = order.key;
        let front = [code, number, label];
        let count = order.list().len() as u16;
        let choices = padded(order);
        *order = order_at(board, s);
        board[start..start + COUNT].copy_from_slice(&front);
        board[start + COUNT] = count;
        board[end - MOST_CHOICES..end].copy_from_slice(&choices);
    } else {
        let contents = record_of(order, label);
        *order = order_at(board, s);
        put_record(board, s, &contents);
    }
}

pub fn put_free(board: &mut [u16], s: u16)
    ensures { board.new ≡ sets board.old (base s) free_slot }
{
    put_record(board, s, &[0; SLOT_WORDS]);
}

// What the four below share: each of them names a place, and nothing else.
fn put_word(board: &mut [u16], i: usize, x: u16)
    ensures { board.new ≡ set board.old i x }
{
    if i < board.len() {
        board[i] = x;
    }
}

pub fn put_label(board: &mut [u16], s: u16, label: u16)
    ensures { board.new ≡ set board.old (label_word s) label }
{
    put_word(board, start_of(s) + LABEL, label);
}

pub fn put_count_word(board: &mut [u16], s: u16, x: u16)
    ensures { board.new ≡ set board.old (count_word s) x }
{
    put_word(board, start_of(s) + COUNT, x);
}

pub fn put_size(board: &mut [u16], n: u16)
    ensures { board.new ≡ set board.old size_word n }
{
    put_word(board, SIZE, n);
}

pub fn put_held(board: &mut [u16], count: u16)
    ensures { board.new ≡ set board.old held_word count }
{
    put_word(board, HELD, count);
}

// The first k words become 0, as far as they are there.
pub fn zero_front(work: &mut [u16], k: usize)
    ensures { work.new ≡ sets work.old 0 (replicate k 0) }
{
    let end = k.min(work.len());
    work[..end].fill(0);
}
