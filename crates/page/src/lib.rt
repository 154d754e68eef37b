// A page for a browser: the text with each item in a span of its kind's class, and the nodes of a selection set around them. The page's head, with
// the style, is lent on descriptor 5 (page/head.html). Whatever comes from the text or from the name goes through `put_shown`, as a page's.
#![tactic(auto)]

ghost use Rattle.std.specs.Prelude.{◌≡◌};
ghost use Rattle.base.specs.Text.{from};
ghost use Rattle.codes.specs.Refusals.{depth_limit, item_tape_full};

use codes::{Fault, Kind, Refusal, fault, kind, node, refusal};
use print::{
    ErrorCode, Medium, Output, Refused, Spot, entry_at, first_error, forward, put_error_item,
    put_shown, sum,
};
use reader::Answer;
use std::env::Env;
use std::fmt;
use std::fmt::Write;
use std::ops::{Range, RangeInclusive};
use tape::Entry;

// The descriptor on which the head is lent.
const HEAD: i32 = 5;
// The last code of an event that opens a node, and of one that closes one.
// Stays: numbers. No plainer: a range's end is a number, and `Tag` and `Label` take any byte.
const LAST_OPENING: u8 = node::CLOSES - 1;

const LAST_CLOSING: u8 = node::TOKEN - 1;
// The last code that an item can have.
const LAST: u8 = kind::ERROR + Fault::BadBracedEscape as u8;

// Did the reader stop before the end of the text?
pub fn is_cut(number: usize) -> bool
    ensures { result ≡ from depth_limit item_tape_full number }
{
    (Refusal::DepthLimit as usize..=Refusal::ItemTapeFull as usize).contains(&number)
}

// The kind of an item, by its code, with no sign that means something in markup.
#[derive(Clone, Copy)]
struct Label(u8);

impl fmt::Display for Label {
    fn fmt<W: fmt::Write>(&self, f: &mut fmt::Formatter<W>) -> fmt::Result {
        if let Some(number) = self.0.checked_sub(kind::ERROR) {
            return write!(f, "error {number}");
        }
        match Kind::try_from(self.0).unwrap_or(Kind::Float) {
            Kind::Amp => f.write_str("&amp;"),
            kind => write!(f, "{kind}"),
        }
    }
}

// The tag of an event that opens or closes a node.
#[derive(Clone, Copy)]
struct Tag(u8);

impl fmt::Display for Tag {
    fn fmt<W: fmt::Write>(&self, f: &mut fmt::Formatter<W>) -> fmt::Result {
        let code = self.0;
        if code < node::CLOSES {
            write!(f, "<span class=\"n{code}\">")
        } else {
            f.write_str("</span>")
        }
    }
}

// The name that the text goes by, escaped.
fn put_name<R: Env>(rt: &R, out: &mut Output) -> fmt::Result {
    let mut name = io::buffer();
    let n = rt.arg(5, &mut name).unwrap_or(0);
    put_shown(out, Medium::Page, &name[..n], 4096)
}

// The head to its end, 4,096 bytes at a time: at most a thousand times that, as a proved loop has to end.
fn put_head(out: &mut Output) -> fmt::Result {
    let mut buffer = io::buffer();
    for _ in 0..1000 {
        let n = io::read_full(HEAD, &mut buffer);
        if n == 0 {
            break;
        }
        out.put(&buffer[..n])?;
    }
    Ok(())
}

fn put_item(out: &mut Output, text: &[u8], e: Entry, index: usize) -> fmt::Result {
    put_opening(out, e.code, index)?;
    put_title(out, e)?;
    out.write_str("\">")?;
    put_shown(
        out,
        Medium::Page,
        reader::part(text, e.start, e.size),
        refusal::LONGEST,
    )?;
    out.write_str("</span>")
}

// The start of an item's span, up to its title. An error item can be led to.
fn put_opening(out: &mut Output, code: u8, index: usize) -> fmt::Result {
    if code < kind::ERROR {
        write!(out, "<span class=\"k{code}\" title=\"")
    } else {
        write!(out, "<span id=\"i{index}\" class=\"e\" title=\"")
    }
}

// What a span says of its item when the pointer rests on it.
fn put_title(out: &mut Output, e: Entry) -> fmt::Result {
    let end = sum(e.start, e.size);
    write!(out, "{}, bytes {} to {end}", Label(e.code), e.start)?;
    match e.code.checked_sub(kind::ERROR) {
        Some(error) => write!(out, ": {}", ErrorCode(error)),
        None => Ok(()),
    }
}

// The events that the grammar gave, and the numbers of those that are still to come.
#[derive(Drop)]
struct Tags<'a> {
    tape: &'a [u8],
    left: Range<usize>,
}

impl<'a> Tags<'a> {
    // The tags of the next events, as long as they have one of these codes.
    fn put(&mut self, out: &mut Output, codes: RangeInclusive<u8>) -> fmt::Result {
        for i in self.left.start..self.left.end {
            let code = entry_at(self.tape, i).code;
            if !codes.contains(&code) {
                break;
            }
            write!(out, "{}", Tag(code))?;
            self.pass();
        }
        Ok(())
    }

    // Passes the next event, if there is one.
    fn pass(&mut self) {
        self.left.next();
    }
}

// Eof, and the items that the grammar passes over, stand in no event.
fn is_passed(code: u8) -> bool {
    code <= Kind::Comma as u8 || code >= kind::ERROR
}

// A text and what the reader found in it.
#[derive(Clone, Copy)]
struct Page<'a> {
    text: &'a [u8],
    items: &'a [u8],
    events: &'a [u8],
    answer: Answer,
}

impl<'a> Page<'a> {
    // How many items have one of these codes.
    fn count(self, codes: RangeInclusive<u8>) -> usize {
        (0..self.answer.items)
            .filter(|i| codes.contains(&entry_at(self.items, *i).code))
            .count()
    }

    fn put_header<R: Env>(self, rt: &R, out: &mut Output) -> fmt::Result {
        out.write_str("<title>")?;
        put_name(rt, out)?;
        out.write_str("</title>\n</head>\n<body>\n<header>\n<h1>")?;
        put_name(rt, out)?;
        let bytes = self.text.len();
        let items = self.answer.items;
        let errors = self.count(kind::ERROR..=u8::MAX);
        write!(
            out,
            "</h1>\n<p>Bytes: {bytes}. Items: {items}. Error items: {errors}.</p>\n</header>\n"
        )
    }

    // The kinds that the text has, and how many items of each.
    fn put_legend(self, out: &mut Output) -> fmt::Result {
        out.write_str("<ul class=\"legend\">\n")?;
        for code in Kind::Whitespace as u8..=LAST {
            let n = self.count(code..=code);
            if n != 0 {
                let label = Label(code);
                write!(out, "<li><b class=\"k{code}\">{label}</b> {n}</li>\n")?;
            }
        }
        out.write_str("</ul>\n")
    }

    // The error items, if there are any: each entry leads to its item.
    fn put_errors(self, out: &mut Output) -> fmt::Result {
        let first = first_error(self.items, self.answer.items);
        if fault::number_or_none(first) == fault::NONE {
            return Ok(());
        }
        out.write_str("<ol class=\"errors\">\n")?;
        let mut spot = Spot::new();
        for index in 0..self.answer.items {
            let e = entry_at(self.items, index);
            let Some(error) = e.code.checked_sub(kind::ERROR) else {
                continue;
            };
            spot = forward(self.text, spot, e.start);
            write!(out, "<li><a href=\"#i{index}\">")?;
            put_error_item(out, false, error, spot, sum(e.start, e.size))?;
            out.write_str("</a></li>\n")?;
        }
        out.write_str("</ol>\n")
    }

    // The text: its items one after the other, and the nodes around them, which open before a token and close after it.
    fn put_text(self, out: &mut Output) -> fmt::Result {
        let mut tags = Tags {
            tape: self.events,
            left: 0..self.answer.events,
        };
        for index in 0..self.answer.items {
            let e = entry_at(self.items, index);
            if is_passed(e.code) {
                put_item(out, self.text, e, index)?;
                continue;
            }
            tags.put(out, 0..=LAST_OPENING)?;
            put_item(out, self.text, e, index)?;
            // the token's
            tags.pass();
            tags.put(out, node::CLOSES..=LAST_CLOSING)?;
        }
        Ok(())
    }

    // Whether the text is a selection set, and if not, why.
    fn put_verdict(self, out: &mut Output) -> fmt::Result {
        let a = self.answer;
        if a.number == refusal::DONE {
            return out.write_str("<p>The text is a selection set.</p>\n");
        }
        out.write_str("<p class=\"refused\">Not read as a selection set: ")?;
        let first = first_error(self.items, a.items);
        Refused::new(self.text, a.number, a.place, first).put(out, false)?;
        out.write_str("</p>\n")
    }
}

pub fn put_page<R: Env>(
    rt: &R,
    out: &mut Output,
    text: &[u8],
    items: &[u8],
    events: &[u8],
    answer: Answer,
) -> fmt::Result {
    let page = Page {
        text,
        items,
        events,
        answer,
    };
    put_head(out)?;
    page.put_header(rt, out)?;
    page.put_verdict(out)?;
    page.put_legend(out)?;
    page.put_errors(out)?;
    out.write_str("<pre>")?;
    page.put_text(out)?;
    out.write_str("</pre>\n</body>\n</html>\n")
}
