// Where a line ends, and how wide a column is.
#![tactic(auto)]

ghost use Rattle.std.specs.Prelude.{◌≡◌};
ghost use Rattle.framing.specs.Ends.{feed_from};

use memchr::memchr;

// "columns of six characters": in the lines that come in, and in the order writer's.
pub const COLUMN_BYTES: usize = 6;

// The index of the first line feed at or after `from`, if there is one.
#[tactic(auto, using(crate::proofs::EndLaws::feed_none, crate::proofs::EndLaws::feed_some))]
pub fn line_end(s: &[u8], from: usize) -> Option<usize>
    ensures { result ≡ feed_from s.now from }
{
    let found = memchr(b'\n', s.get(from..)?)?;
    Some(from + found)
}
