// How a run ends.
use std::{fmt, io};

// What was asked for was done.
#[derive(Clone, Copy, Debug, PartialEq, Eq)]
pub enum Ended {
    Read,
    // there was a refusal or an error item
    Refused,
    // of a part: its span passes the end of the text
    Empty,
}

// Why it was not.
#[derive(Clone, Copy, Debug, PartialEq, Eq)]
pub enum Complaint {
    Unread,
    Unwritten,
    LongForPart,
    Long,
    NoRoom,
    NoRoomForLong,
}

impl From<fmt::Error> for Complaint {
    fn from(_e: fmt::Error) -> Complaint {
        Complaint::Unwritten
    }
}

impl From<lists::Unwritten> for Complaint {
    fn from(_e: lists::Unwritten) -> Complaint {
        Complaint::Unwritten
    }
}

impl From<io::Error> for Complaint {
    fn from(_e: io::Error) -> Complaint {
        Complaint::Unread
    }
}

impl Complaint {
    // The line on standard error.
    // Stays: beside Display. It is no plainer: nothing is formatted, and standard error has no `fmt::Write` here.
    pub fn line(self) -> &'static str {
        match self {
            Complaint::Unread => "paumelu: the text cannot be read\n",
            Complaint::Unwritten => "paumelu: the output cannot be written\n",
            Complaint::LongForPart => {
                "paumelu: a part is taken of a text of up to 16,777,216 bytes\n"
            }
            Complaint::Long => "paumelu: only items and part take a text of over 1,048,576 bytes\n",
            Complaint::NoRoom => {
                "paumelu: the stack has no room for a text of over 65,536 bytes (ulimit -s)\n"
            }
            Complaint::NoRoomForLong => {
                "paumelu: the stack has no room for a text of over 65,536 bytes\n"
            }
        }
    }
}
