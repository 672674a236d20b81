// A pattern in words that a call must leave alone.
ghost use Rattle.std.specs.Prelude.{◌≡◌, ◌↔◌, IsTrue};
ghost use Rattle.trial_kit.specs.Marks.{work_size, mark as mark_of, HasMarks, HasZeros, IsCleared};

// What word i is before a call that must leave it alone: never 0, and not the same in neighbours.
fn mark(i: usize) -> u16
    ensures { result ≡ mark_of i }
{
    // At most 999.
    (i % 1000) as u16 + 7000
}

pub fn fill_marks(words: &mut [u16])
    ensures { HasMarks 0 words.new }
{
    for (i, word) in words.iter_mut().enumerate() {
        *word = mark(i);
    }
}

// Each word from index `from` on has its mark.
pub fn has_marks(words: &[u16], from: usize) -> bool
    ensures { IsTrue result ↔ HasMarks from words.now }
{
    words
        .iter()
        .enumerate()
        .skip(from)
        .all(|(i, word)| *word == mark(i))
}

// No word from index `from` up to `to` is other than 0.
pub fn has_zeros(words: &[u16], from: usize, to: usize) -> bool
    ensures { IsTrue result ↔ HasZeros from to words.now }
{
    words.iter().take(to).skip(from).all(|word| *word == 0)
}

// How many work words a board of n slots has.
pub fn work_size(n: u16) -> usize
    ensures { result ≡ work_size n }
{
    14 * usize::from(n) + 4
}

// The work words of a board of n slots after a call that passed the checks up to 6: zeros behind the first `shown`, and what is beyond them as it was.
pub fn is_cleared(work: &[u16], n: u16, shown: usize) -> bool
    ensures { IsTrue result ↔ IsCleared work.now n shown }
{
    let size = work_size(n);
    has_zeros(work, shown, size) && has_marks(work, size)
}
