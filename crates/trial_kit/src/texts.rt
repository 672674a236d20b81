// The numbers of a line.
ghost use Rattle.std.specs.Prelude.{◌≡◌, ◌≤◌, None, length, min, set, suc};
ghost use Rattle.std.proofs.lemmas.List.Edits.{sets};
ghost use Rattle.trial_kit.specs.Texts.{numbers_of, after_byte, next_place, places, spelt};
ghost use Rattle.trial_kit.specs.Texts.{longer as longer_by};

// The value with one digit more, or 0 where that is more than a word holds: no Option, which would go through every number of a line, since a script
// with such a number is wrong, and its comparisons show that.
fn longer(value: u16, digit: u8) -> u16
    ensures { result ≡ longer_by value digit }
{
    let more = 10 * u32::from(value) + u32::from(digit);
    u16::try_from(more.saturating_sub(u32::from(b'0'))).unwrap_or(0)
}

// The number goes into word `at`, if there is one: where the next one goes.
fn store(found: &mut [u16], at: usize, number: u16) -> usize
    requires { at ≤ length found.old }
    ensures next { result ≡ min (suc at) (length found.old) }
    ensures stored { found.new ≡ set found.old at number }
{
    if at < found.len() {
        found[at] = number;
        return at + 1;
    }
    at
}

// The numbers of a text go into `found` in turn, as far as it has room: how many. Each ends where no digit follows. Into lent words, and no Vec: so it cannot
// fail, and its clauses say which number is where.
#[tactic(auto, using(crate::proofs::Found::sets_next))]
pub fn numbers(text: &[u8], found: &mut [u16]) -> usize
    ensures count { result ≡ min (length (numbers_of None text.now)) (length found.old) }
    ensures stored { found.new ≡ sets found.old 0 (numbers_of None text.now) }
{
    let mut count = 0;
    let mut value = None;
    for &byte in text {
        if byte.is_ascii_digit() {
            value = Some(longer(value.unwrap_or(0), byte));
        } else if let Some(number) = value.take() {
            count = store(found, count, number);
        }
    }
    if let Some(number) = value {
        count = store(found, count, number);
    }
    count
}

// Where the numbers behind an arrow go.
pub const EXPECTED: usize = 32;

const LAST_PLACE: usize = 60;

// The place of the next digit after a byte, before the rest of the text.
fn next_place(byte: u8, rest: &[u8], at: usize) -> usize
    ensures { result ≡ next_place byte rest.now at }
{
    if byte == b'>' {
        return EXPECTED;
    }
    if !byte.is_ascii_digit() || rest.first().is_some_and(u8::is_ascii_digit) || LAST_PLACE <= at {
        return at;
    }
    at + 1
}

// A digit goes to the number at its place.
fn take_byte(byte: u8, at: usize, found: &mut [u16])
    ensures { found.new ≡ after_byte byte at found.old }
{
    if byte.is_ascii_digit() && at < found.len() {
        found[at] = longer(found[at], byte);
    }
}

// The numbers of a line go to their places: the place behind the last of them. A place that is come to again has its number gone on with.
pub fn places(text: &[u8], found: &mut [u16]) -> usize
    ensures place { result ≡ places 0 text.now }
    ensures stored { found.new ≡ spelt 0 text.now found.old }
{
    let mut at = 0;
    for (i, &byte) in text.iter().enumerate() {
        take_byte(byte, at, found);
        at = next_place(byte, &text[i + 1..], at);
    }
    at
}
