// What is asked, as the script `paumelu` hands it over in the program's arguments: ENTRY FLAGS LIMIT DEPTH NAME.
//
// ENTRY is a digit: 0 items, 1 value, 2 constant value, 3 type, 4 selection set, 5 part, 6 page. FLAGS are five digits, 1 for yes: print tape words,
// colour, tell the status on descriptor 3, the stack has room for a text of over 65,536 bytes, the text is known to be so long. LIMIT and DEPTH are decimal; for a part they are start and length.
// NAME is what a page calls the text.
ghost use Rattle.std.specs.Prelude.{◌≤◌};

use lists::{Form, Style};
use std::env::Env;

// Stays: beside `replay`'s and the grammar's. Each program takes entries that the other has not (a page; the C interface), by numbers of its own.
#[derive(Clone, Copy, Debug, PartialEq, Eq)]
pub enum Entry {
    Items,
    Value,
    Constant,
    Type,
    Selection,
    Part,
    Page,
}

// An argument that is no entry.
#[derive(Clone, Copy, Debug, PartialEq, Eq)]
pub struct UnknownEntry;

impl TryFrom<u8> for Entry {
    type Error = UnknownEntry;

    fn try_from(digit: u8) -> Result<Entry, UnknownEntry> {
        match digit {
            b'0' => Ok(Entry::Items),
            b'1' => Ok(Entry::Value),
            b'2' => Ok(Entry::Constant),
            b'3' => Ok(Entry::Type),
            b'4' => Ok(Entry::Selection),
            b'5' => Ok(Entry::Part),
            b'6' => Ok(Entry::Page),
            _ => Err(UnknownEntry),
        }
    }
}

impl Entry {
    // Does the entry take a text of up to 16,777,216 bytes? The others need both tapes whole.
    pub fn takes_large(self) -> bool {
        matches!(self, Entry::Items | Entry::Part)
    }
}

// Stays: limit and depth, which are start and length for a part, as the script hands them over (what may not change): it has the same fields for all.
#[derive(Clone, Copy, Debug)]
pub struct Asked {
    pub entry: Entry,
    pub style: Style,
    pub tells: bool,
    pub roomy: bool,
    pub long: bool,
    pub limit: usize,
    pub depth: usize,
}

fn digit(b: u8) -> usize {
    char::from(b).to_digit(10).unwrap_or(0) as usize
}

// A number that is too large to hold is larger than the items or bytes of any text, as the largest is.
fn number(word: &[u8]) -> usize {
    word.iter().fold(
        0,
        |v: usize, b| v.saturating_mul(10).saturating_add(digit(*b)),
    )
}

// A number that is missing, or too long for any use, is the largest.
fn number_argument<R: Env>(rt: &R, i: usize) -> usize {
    let mut word = [0u8; 32];
    match rt.arg(i, &mut word) {
        Ok(n) => number(&word[..n]),
        Err(_) => usize::MAX,
    }
}

fn flag(word: &[u8], i: usize) -> bool {
    word.get(i) == Some(&b'1')
}

// A selection set is asked for where the entry is none of the others.
fn from_words(entry: &[u8], flags: &[u8], limit: usize, depth: usize) -> Asked {
    let form = if flag(flags, 0) {
        Form::Word
    } else {
        Form::Row
    };
    Asked {
        entry: Entry::try_from(base::byte_at(entry, 0)).unwrap_or(Entry::Selection),
        style: Style {
            form,
            colour: flag(flags, 1),
        },
        tells: flag(flags, 2),
        roomy: flag(flags, 3),
        long: flag(flags, 4),
        limit,
        depth,
    }
}

// How many bytes of the argument i stand in the word: none where it is missing or too long.
fn word_length<R: Env>(rt: &R, i: usize, word: &mut [u8; 8]) -> usize
    ensures { result ≤ 8 }
{
    rt.arg(i, word).unwrap_or(0)
}

pub fn arguments<R: Env>(rt: &R) -> Asked {
    let mut entry = [0u8; 8];
    let n = word_length(rt, 1, &mut entry);
    let mut flags = [0u8; 8];
    let k = word_length(rt, 2, &mut flags);
    from_words(
        &entry[..n],
        &flags[..k],
        number_argument(rt, 3),
        number_argument(rt, 4),
    )
}
