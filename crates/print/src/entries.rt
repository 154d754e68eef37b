// The entries of a tape, read as far as it has any.
ghost use Rattle.std.specs.Prelude.{◌≡◌};
ghost use Rattle.tape.specs.Answers.{item_of};
ghost use Rattle.print.specs.Entries.{entry_at, first_error};

use codes::{Kind, kind};
use tape::Entry;

// Stays: codes as bytes, here and in all that shows an entry. What may not change: the clauses of `entry_at` and `first_error` are of any tape that is lent.

// Entry number i of a tape; Eof at 0 where the tape has none.
// Stays: entries by number, here and in each `for i in 0..count` with a tape beside. An iterator is no plainer: rows show the numbers, and a count may be
// larger than the tape, whose missing entries are Eof.
#[tactic(auto, unfolding(crate::specs::Entries::entry_at))]
pub fn entry_at(tape: &[u8], i: usize) -> Entry
    ensures { item_of result ≡ entry_at tape.now i }
{
    if i < tape::capacity(tape) {
        return tape::get_entry(tape, i);
    }
    Entry {
        code: Kind::Eof as u8,
        start: 0,
        size: 0,
    }
}

// The error of the first error item among the tape's first `count`, if one is.
pub fn first_error(tape: &[u8], count: usize) -> Option<u8>
    ensures { result ≡ first_error tape.now 0 count }
{
    (0..count).find_map(|i| entry_at(tape, i).code.checked_sub(kind::ERROR))
}
