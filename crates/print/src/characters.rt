// A text's characters, one after the other, and how each is shown. A byte where no well-formed sequence begins counts as a character of its own.
ghost use Rattle.std.specs.Prelude.{◌≡◌, ◌||◌, ◌+◌, ◌-◌, ◌≤◌, ◌<◌, min, max, length};
ghost use Rattle.std.specs.Iterator.{at_most};
ghost use Rattle.print.specs.Characters.{seen_at, hidden, broad};

use crate::output::Output;
use std::fmt;
use std::fmt::Write;

// A character's number and how many bytes it has; or a byte that begins none.
#[derive(Clone, Copy, Debug, PartialEq, Eq)]
pub enum Seen {
    Character { value: u32, size: usize },
    Byte(u8),
}

// What stands at i, if anything.
#[tactic(auto, using(crate::proofs::Decoded::decoded), unfolding(crate::specs::Characters::seen_at))]
fn seen_at(s: &[u8], i: usize) -> Option<Seen>
    ensures { result ≡ seen_at s.now i }
{
    if s.len() <= i {
        return None;
    }
    match utf8::decode(&s[i..]) {
        Ok(utf8::Scalar { value, size }) => Some(Seen::Character { value, size }),
        Err(_) => Some(Seen::Byte(s[i])),
    }
}

// The characters of a text from an index on, each with its index.
#[derive(Clone, Copy)]
pub struct Characters<'a> {
    text: &'a [u8],
    index: usize,
}

impl<'a> Characters<'a> {
    pub fn new(text: &'a [u8], from: usize) -> Self {
        Characters { text, index: from }
    }
}

impl<'a> Iterator for Characters<'a> {
    type Item = (usize, Seen);

    ghost remaining = { λ c. at_most (length c.text.now - c.index) };

    fn next(&mut self) -> Option<(usize, Seen)> {
        if self.text.len() <= self.index {
            return None;
        }
        let at = self.index;
        let seen = seen_at(self.text, at)?;
        self.index = past(at, seen.size(), self.text.len());
        Some((at, seen))
    }
}

// The index past a character of the given size: at least one byte on, and not past the end.
fn past(i: usize, size: usize, end: usize) -> usize
    requires { i < end }
    ensures { result ≡ min (i + max size 1) end }
{
    i + size.max(1).min(end - i)
}

// Control characters, and those that leave no mark or turn the direction of what follows.
fn is_hidden(v: u32) -> bool
    ensures { result ≡ hidden v }
{
    matches!(
        v,
        0x00..=0x1F
            | 0x7F..=0x9F
            | 0xAD
            | 0x61C
            | 0x200B..=0x200F
            | 0x2028..=0x202E
            | 0x2060..=0x206F
            | 0xFEFF
            | 0xFFF9..=0xFFFB
            | 0xE0000..=0xE0FFF
    )
}

// The letter after the backslash for LF, CR and tab.
fn letter(v: u32) -> Option<char> {
    match v {
        10 => Some('n'),
        13 => Some('r'),
        9 => Some('t'),
        _ => None,
    }
}

fn put_escape(out: &mut Output, v: u32) -> fmt::Result {
    match letter(v) {
        Some(l) => write!(out, "\\{l}"),
        None => write!(out, "\\u{{{v:X}}}"),
    }
}

// The character at i of s, which is c: itself, or an escape.
// Stays: s, i and c one by one, here, in `put_safe` and in `put_flat`. A struct is no plainer: `Characters` gives i and c, and each caller has s.
pub fn put_character(out: &mut Output, s: &[u8], i: usize, c: Seen) -> fmt::Result {
    match c {
        Seen::Byte(b) => write!(out, "\\x{b:02X}"),
        Seen::Character { value, .. } if is_hidden(value) => put_escape(out, value),
        Seen::Character { size, .. } => out.put(reader::part(s, i, size)),
    }
}

pub fn put_more(out: &mut Output) -> fmt::Result {
    out.write_str("…")
}

// The character at i of s, which is c, as text of a page: nothing of it is markup, and tab, LF and CR are laid out by the browser.
fn put_safe(out: &mut Output, s: &[u8], i: usize, c: Seen) -> fmt::Result {
    match c {
        Seen::Byte(_) => out.write_str("?"),
        Seen::Character {
            value: value @ (34 | 38 | 39 | 60 | 62),
            ..
        } => write!(out, "&#{value};"),
        Seen::Character { value, .. } if is_hidden(value) && !matches!(value, 9 | 10 | 13) =>
            put_escape(out, value),
        Seen::Character { size, .. } => out.put(reader::part(s, i, size)),
    }
}

// Where a text is shown.
#[derive(Clone, Copy, Debug, PartialEq, Eq)]
pub enum Medium {
    Terminal,
    Page,
}

// How many bytes at the front, and no more than `most`, are characters that are shown as they are, wherever it is: ASCII that is neither hidden nor markup.
fn plain_run(s: &[u8], most: usize) -> usize {
    s.iter()
        .take(most)
        .take_while(|b| matches!(b, b' ' | b'!' | b'#'..=b'%' | b'('..=b';' | b'=' | b'?'..=b'~'))
        .count()
}

// All of s, as it is shown there: no more than `most` characters, and `…` for the rest. Most items are a run of plain characters, which is put at once.
pub fn put_shown(out: &mut Output, medium: Medium, s: &[u8], most: usize) -> fmt::Result {
    let plain = plain_run(s, most).min(most);
    out.put(reader::part(s, 0, plain))?;
    for (n, (i, c)) in Characters::new(s, plain).enumerate() {
        if n == most - plain {
            return put_more(out);
        }
        match medium {
            Medium::Terminal => put_character(out, s, i, c)?,
            Medium::Page => put_safe(out, s, i, c)?,
        }
    }
    Ok(())
}

// Characters that take two columns of a terminal: East Asian letters and signs, and pictures.
fn is_broad(v: u32) -> bool
    ensures { result ≡ broad v }
{
    matches!(
        v,
        0x1100..=0x115F
            | 0x2E80..=0xA4CF
            | 0xAC00..=0xD7A3
            | 0xF900..=0xFAFF
            | 0xFE30..=0xFE6F
            | 0xFF00..=0xFF60
            | 0x1F300..=0x1FAFF
            | 0x20000..=0x3FFFD
    )
}

fn hex_digits(v: u32) -> usize {
    let mut text = [0u8; 16];
    io::hex(v as u64, 1, &mut text)
}

// The columns of a character that is shown by an escape.
fn escape_columns(v: u32) -> usize
    ensures { result ≤ 20 }
{
    match letter(v) {
        Some(_) => 2,
        None => hex_digits(v).min(16) + 4,
    }
}

impl Seen {
    // How many bytes of the text it takes.
    fn size(self) -> usize {
        match self {
            Seen::Character { size, .. } => size,
            Seen::Byte(_) => 1,
        }
    }

    // How many columns of a terminal the character takes as it is shown. Marks that stand on the letter before them take none.
    pub fn columns(self) -> usize
        ensures { result ≤ 20 }
    {
        match self {
            Seen::Byte(_) => 4,
            Seen::Character { value, .. } if is_hidden(value) => escape_columns(value),
            Seen::Character {
                value: 0x300..=0x36F,
                ..
            } => 0,
            Seen::Character { value, .. } if is_broad(value) => 2,
            Seen::Character { .. } => 1,
        }
    }
}
