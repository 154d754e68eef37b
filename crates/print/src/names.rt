// Document 01's kinds, nodes and errors, by name and in words, wherever a tape has their numbers. Numbers of none are shown too.
use codes::{Fault, Kind, Node, fault, kind, node};
use std::fmt;

// An item, by its code: its kind, 12 columns wide.
#[derive(Clone, Copy, Debug, PartialEq, Eq)]
pub struct ItemCode(pub u8);

impl fmt::Display for ItemCode {
    fn fmt<W: fmt::Write>(&self, f: &mut fmt::Formatter<W>) -> fmt::Result {
        if let Some(number) = self.0.checked_sub(kind::ERROR) {
            let gap = if number < 10 { 5 } else { 4 };
            return write!(f, "error {number}{:gap$}", "");
        }
        match Kind::try_from(self.0) {
            Ok(kind) => write!(f, "{kind:<12}"),
            Err(_) => Ok(()),
        }
    }
}

// A node, by its code: its name, 16 columns wide.
#[derive(Clone, Copy)]
struct NodeCode(u8);

impl fmt::Display for NodeCode {
    fn fmt<W: fmt::Write>(&self, f: &mut fmt::Formatter<W>) -> fmt::Result {
        match Node::try_from(self.0) {
            Ok(node) => write!(f, "{node:<16}"),
            Err(_) if self.0 == 0 => write!(f, "{:16}", ""),
            Err(_) => Ok(()),
        }
    }
}

// An event, by its code, 17 columns wide: a node's name where it opens, with a slash where it closes; a token's kind.
#[derive(Clone, Copy, Debug, PartialEq, Eq)]
pub struct EventCode(pub u8);

impl fmt::Display for EventCode {
    fn fmt<W: fmt::Write>(&self, f: &mut fmt::Formatter<W>) -> fmt::Result {
        let code = self.0;
        if code < node::CLOSES {
            write!(f, "{} ", NodeCode(code))
        } else if code < node::TOKEN {
            write!(f, "/{}", NodeCode(code - node::CLOSES))
        } else {
            write!(f, "{}     ", ItemCode(code - node::TOKEN))
        }
    }
}

// An error, by its number, in words.
#[derive(Clone, Copy, Debug, PartialEq, Eq)]
pub struct ErrorCode(pub u8);

impl fmt::Display for ErrorCode {
    fn fmt<W: fmt::Write>(&self, f: &mut fmt::Formatter<W>) -> fmt::Result {
        match Fault::try_from(self.0) {
            Ok(fault) => write!(f, "{fault}"),
            Err(_) if self.0 == fault::NONE => f.write_str("no error"),
            Err(_) => write!(f, "{}", Fault::BadBracedEscape),
        }
    }
}
