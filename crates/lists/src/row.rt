// What both lists have: how rows are asked for, and the parts of a row.
ghost use Rattle.std.specs.Prelude.{◌≡◌};
ghost use Rattle.lists.specs.Colours.{colour_of};

use codes::{Kind, kind};
use print::{Colour, Medium, Output, digits, put_shown, sum};
use std::fmt;
use std::fmt::Write;
use tape::Entry;

// What a list has for each entry.
#[derive(Clone, Copy, Debug, PartialEq, Eq)]
pub enum Form {
    Row,
    // the tape's word
    Word,
}

#[derive(Clone, Copy, Debug, PartialEq, Eq)]
pub struct Style {
    pub form: Form,
    pub colour: bool,
}

// How many numbers a field of 28 bits holds.
const FIELD: usize = 0x1000_0000;

// A hexadecimal digit.
fn digit(d: u8) -> u8 {
    b"0123456789ABCDEF"[usize::from(d % 16)]
}

// A tape's word, as document 01 writes it.
pub fn put_word(out: &mut Output, e: Entry) -> fmt::Result {
    let start = (e.start % FIELD) as u64;
    let size = (e.size % FIELD) as u64;
    let word = (u64::from(e.code) * FIELD as u64 + start) * FIELD as u64 + size;
    let digits = word.to_be_bytes().map(|b| [digit(b / 16), digit(b % 16)]);
    out.put(digits.as_flattened())?;
    out.write_str("\n")
}

// Item codes, as patterns.
// Stays: bytes, as a pattern takes a constant. What may not change: `colour_of` promises its result for any byte.
const COMMENT: u8 = Kind::Comment as u8;

const NAME: u8 = Kind::Name as u8;

const STRING_VALUE: u8 = Kind::StringValue as u8;

const INT: u8 = Kind::Int as u8;

const FLOAT: u8 = Kind::Float as u8;

// The colour of an item's kind.
pub fn colour_of(code: u8) -> Colour
    ensures { result ≡ colour_of code }
{
    match code {
        kind::ERROR.. => Colour::Red,
        ..=COMMENT => Colour::Dim,
        NAME => Colour::Bold,
        STRING_VALUE => Colour::Green,
        INT | FLOAT => Colour::Cyan,
        _ => Colour::Yellow,
    }
}

// A list of a text that is asked for, and how wide its numbers are.
#[derive(Clone, Copy, Debug)]
pub struct List<'a> {
    pub style: Style,
    pub text: &'a [u8],
    pub width: usize,
}

impl<'a> List<'a> {
    pub fn new(style: Style, text: &'a [u8]) -> Self {
        List {
            style,
            text,
            width: digits(sum(text.len(), 1)),
        }
    }

    // Start and end.
    pub fn put_span(self, out: &mut Output, e: Entry) -> fmt::Result {
        let width = self.width;
        let start = e.start;
        let end = sum(start, e.size);
        write!(out, " {start:width$}  {end:width$}")
    }

    // What the entry covers, if anything, shortened.
    pub fn put_covered(self, out: &mut Output, e: Entry) -> fmt::Result {
        if e.size == 0 {
            return Ok(());
        }
        out.write_str("  ")?;
        put_shown(
            out,
            Medium::Terminal,
            reader::part(self.text, e.start, e.size),
            40,
        )
    }
}
