// What stands at a place of the text: a token of a kind, or an error.
ghost use Rattle.std.specs.Prelude.{◌≡◌, ◌<◌};
ghost use Rattle.base.specs.Lexed.{code_of, size_of};
ghost use Rattle.codes.specs.KindNumbers as kinds;
ghost use Rattle.codes.specs.FaultNumbers as faults;

use codes::{Fault, Kind, kind};

// Stays: numbers, since `size_of` promises its result for any, `code_of` for all whose code is below 256 (docs/PROMISES.md names both), and
// `own_token` and `own_fault` (lexer/proofs/Own.antt) speak of such items.
#[derive(Clone, Copy)]
pub enum Lexed {
    Token { kind: u8, size: usize },
    Error { fault: u8, size: usize },
}

impl Lexed {
    pub fn token(kind: Kind, size: usize) -> Lexed
        ensures { result ≡ Lexed.Token (kinds.number_of kind) size }
    {
        Lexed::Token {
            kind: kind.into(),
            size,
        }
    }

    pub fn error(fault: Fault, size: usize) -> Lexed
        ensures { result ≡ Lexed.Error (faults.number_of fault) size }
    {
        Lexed::Error {
            fault: fault.into(),
            size,
        }
    }
}

// Document 01's code of an item.
pub fn code_of(item: Lexed) -> u8
    requires { code_of item < 256 }
    ensures { result ≡ code_of item }
{
    match item {
        Lexed::Token { kind, .. } => kind,
        Lexed::Error { fault, .. } => kind::ERROR + fault,
    }
}

pub fn size_of(item: Lexed) -> usize
    ensures { result ≡ size_of item }
{
    match item {
        Lexed::Token { size, .. } | Lexed::Error { size, .. } => size,
    }
}
