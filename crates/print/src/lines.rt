// Lines and columns, both from 1. LF, CR, and CR followed by LF each end one line, and that LF is on the CR's line. Columns count characters.
ghost use Rattle.std.specs.Prelude.{◌≡◌, ◌+◌, ◌-◌, ◌^◌, min, max};

use crate::characters::{Characters, Seen, put_character, put_more};
use crate::output::{Output, sum};
use std::fmt;
use std::fmt::Write;

// A byte's place as an editor counts it, and where its line starts.
#[derive(Clone, Copy, Debug, PartialEq, Eq)]
pub struct Spot {
    pub byte: usize,
    pub line: usize,
    pub column: usize,
    pub start: usize,
}

impl Spot {
    // The place of byte 0.
    pub fn new() -> Self
        ensures { (result.byte ≡ 0) × ((result.line ≡ 1) × ((result.column ≡ 1) × (result.start ≡ 0))) }
    {
        Spot {
            byte: 0,
            line: 1,
            column: 1,
            start: 0,
        }
    }
}

// Does the line end with the byte at i?
fn ends_line(text: &[u8], i: usize) -> bool {
    match text.get(i) {
        Some(b'\n') => true,
        Some(b'\r') => text.get(i + 1) != Some(&b'\n'),
        _ => false,
    }
}

// Does a character begin with the byte at i, or is the byte one that begins none? The later bytes of a character do not.
fn begins(text: &[u8], i: usize) -> bool {
    !base::within(0x80, 0xBF, base::byte_at(text, i))
}

// One byte further on.
fn step(text: &[u8], spot: Spot) -> Spot
    ensures { result.byte ≡ min (spot.byte + 1) (2 ^ 64 - 1) }
{
    let byte = sum(spot.byte, 1);
    if ends_line(text, spot.byte) {
        return Spot {
            byte,
            line: sum(spot.line, 1),
            column: 1,
            start: byte,
        };
    }
    let column = if begins(text, spot.byte) {
        sum(spot.column, 1)
    } else {
        spot.column
    };
    Spot {
        byte,
        column,
        ..spot
    }
}

// The place of byte `to`, which is not before the one given: so a walk over many places reads the text once.
pub fn forward(text: &[u8], from: Spot, to: usize) -> Spot
    ensures { result.byte ≡ max from.byte to }
{
    let mut spot = from;
    for _ in from.byte..to {
        spot = step(text, spot);
    }
    spot
}

// The index of the character that is 40 characters before `at`, and not before `low`.
fn back(text: &[u8], low: usize, at: usize) -> usize {
    (low..at)
        .rev()
        .filter(|i| begins(text, *i))
        .nth(39)
        .unwrap_or(low.min(at))
}

// A tab is shown as a space, so that the caret fits.
fn flat(c: Seen) -> Seen {
    match c {
        Seen::Character { value: 9, size } => Seen::Character { value: 32, size },
        c => c,
    }
}

fn put_flat(out: &mut Output, text: &[u8], i: usize, c: Seen) -> fmt::Result {
    match c {
        Seen::Character { value: 9, .. } => out.write_str(" "),
        c => put_character(out, text, i, c),
    }
}

fn is_line_end(c: Seen) -> bool {
    matches!(c, Seen::Character { value: 10 | 13, .. })
}

// Shows the text from `from` on to the line's end, at most 76 characters.
fn put_line(out: &mut Output, text: &[u8], from: usize) -> fmt::Result {
    for (n, (i, c)) in Characters::new(text, from).enumerate() {
        if is_line_end(c) {
            break;
        }
        if n == 76 {
            return put_more(out);
        }
        put_flat(out, text, i, c)?;
    }
    Ok(())
}

// How many columns the text from `from` up to `to` takes as it is shown.
fn columns_to(text: &[u8], from: usize, to: usize) -> usize {
    Characters::new(text, from)
        .take_while(|(i, _)| *i < to)
        .fold(0, |n, (_, c)| sum(n, flat(c).columns()))
}

// The spot's line, or what of it is near the spot, and a caret under the spot.
pub fn put_caret(out: &mut Output, text: &[u8], spot: Spot) -> fmt::Result {
    let from = back(text, spot.start, spot.byte);
    let cut = spot.start < from;
    write!(out, "{:4}", "")?;
    if cut {
        put_more(out)?;
    }
    put_line(out, text, from)?;
    let indent = sum(if cut { 5 } else { 4 }, columns_to(text, from, spot.byte));
    write!(out, "\n{:indent$}^\n", "")
}
