// The list of a text's items. A text may have more items than the tape has room for: then the tape is filled again from the first unread byte on,
// where the items are those of the rest of the text, read alone and moved (`suffix` in crates/rules/proofs/Tiling.antt).
use crate::row::{Form, List, Style, colour_of, put_word};
use codes::{Refusal, kind, refusal};
use print::{
    Colour, ItemCode, Output, Refused, Spot, entry_at, forward, less, put_caret, put_error_item,
    sum,
};
use std::fmt;
use std::fmt::Write;
use tape::Entry;

// What is listed of a text: all its items, with a count of its error items, or its error items with their lines.
// Stays: a value that says which. A closure is no plainer: it would be lent list, output, index, entry and pass, and each method between would ask
// that it may be called on them.
#[derive(Clone, Copy, Debug, PartialEq, Eq)]
enum Wanted {
    Items,
    Errors,
}

// How far a pass over the items has come: how many items there may be, the reader's number, the first unread byte, how many items were given, how many
// error items were listed, and the place in the text.
#[derive(Clone, Copy, Debug)]
struct Pass {
    limit: usize,
    number: usize,
    place: usize,
    given: usize,
    errors: usize,
    spot: Spot,
}

impl Pass {
    // A pass that is to begin.
    fn new(limit: usize) -> Self {
        Pass {
            limit,
            number: refusal::DONE,
            place: 0,
            given: 0,
            errors: 0,
            spot: Spot::new(),
        }
    }
}

impl<'a> List<'a> {
    fn put_item(self, out: &mut Output, index: usize, e: Entry) -> fmt::Result {
        let width = self.width;
        let colour = colour_of(e.code).if_wanted(self.style.colour);
        write!(out, "{index:width$}  {colour}{}", ItemCode(e.code))?;
        self.put_span(out, e)?;
        self.put_covered(out, e)?;
        writeln!(out, "{}", Colour::Plain.if_wanted(self.style.colour))
    }

    fn put_error(self, out: &mut Output, error: u8, spot: Spot, end: usize) -> fmt::Result {
        put_error_item(out, self.style.colour, error, spot, end)?;
        out.write_str("\n")?;
        put_caret(out, self.text, spot)
    }

    // An item's row or word.
    fn put_listed(self, out: &mut Output, index: usize, e: Entry) -> fmt::Result {
        match self.style.form {
            Form::Word => put_word(out, e),
            Form::Row => self.put_item(out, index, e),
        }
    }

    // What the list has for an entry.
    fn put_entry(
        self,
        out: &mut Output,
        wanted: Wanted,
        index: usize,
        e: Entry,
        pass: &mut Pass,
    ) -> fmt::Result {
        match (wanted, e.code.checked_sub(kind::ERROR)) {
            (Wanted::Items, error) => {
                if error.is_some() {
                    pass.errors = sum(pass.errors, 1);
                }
                self.put_listed(out, index, e)
            }
            (Wanted::Errors, None) => Ok(()),
            (Wanted::Errors, Some(error)) => {
                pass.spot = forward(self.text, pass.spot, e.start);
                self.put_error(out, error, pass.spot, sum(e.start, e.size))
            }
        }
    }

    // One tape of items, from where the pass stands.
    fn put_portion(
        self,
        out: &mut Output,
        wanted: Wanted,
        tape: &mut [u8],
        pass: &mut Pass,
    ) -> fmt::Result {
        let offset = pass.place;
        let given = pass.given;
        let a = reader::read_items(rest(self.text, offset), less(pass.limit, given), tape);
        for i in 0..a.items {
            let e = moved(entry_at(tape, i), offset);
            self.put_entry(out, wanted, sum(given, i + 1), e, pass)?;
        }
        pass.number = a.number;
        pass.place = sum(offset, a.place);
        pass.given = sum(given, a.items);
        Ok(())
    }

    // One pass over all items, tape after tape. Each tape but the last holds an item or more, so there are no more tapes than bytes, and one.
    fn go_through(
        self,
        out: &mut Output,
        wanted: Wanted,
        limit: usize,
        tape: &mut [u8],
    ) -> Result<Pass, fmt::Error> {
        let mut pass = Pass::new(limit);
        for _ in 0..=self.text.len() {
            self.put_portion(out, wanted, tape, &mut pass)?;
            if pass.number != usize::from(Refusal::ItemTapeFull) {
                break;
            }
        }
        Ok(pass)
    }
}

fn moved(e: Entry, offset: usize) -> Entry {
    Entry {
        start: sum(e.start, offset),
        ..e
    }
}

fn rest(text: &[u8], offset: usize) -> &[u8] {
    reader::part(text, offset, less(text.len(), offset))
}

// Lists the items of the text, then its error items with their lines, and then a refusal. Says whether there was an error item or a refusal.
pub fn list_items(
    style: Style,
    limit: usize,
    text: &[u8],
    tape: &mut [u8],
    out: &mut Output,
) -> Result<bool, fmt::Error> {
    let list = List::new(style, text);
    let pass = list.go_through(out, Wanted::Items, limit, tape)?;
    let has_errors = pass.errors != 0;
    if has_errors {
        out.write_str("\n")?;
        list.go_through(out, Wanted::Errors, limit, tape)?;
    }
    if pass.number == refusal::DONE {
        return Ok(has_errors);
    }
    if pass.given != 0 {
        out.write_str("\n")?;
    }
    Refused::new(text, pass.number, pass.place, None).put_report(out, style.colour)?;
    Ok(true)
}
