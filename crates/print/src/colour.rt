// Colours of the terminal.
ghost use Rattle.std.specs.Prelude.{◌≡◌, false, []};

#[derive(Clone, Copy, Debug, PartialEq, Eq)]
pub enum Colour {
    Dim,
    Bold,
    Green,
    Cyan,
    Yellow,
    Red,
    // no colour again
    Plain,
}

impl Colour {
    // What turns the terminal to the colour; nothing where no colour is wanted.
    pub fn if_wanted(self, wanted: bool) -> &'static str
        ensures { wanted ≡ false → result.now ≡ [] }
    {
        if !wanted {
            return "";
        }
        match self {
            Colour::Dim => "\x1b[2m",
            Colour::Bold => "\x1b[1m",
            Colour::Green => "\x1b[32m",
            Colour::Cyan => "\x1b[36m",
            Colour::Yellow => "\x1b[33m",
            Colour::Red => "\x1b[1;31m",
            Colour::Plain => "\x1b[0m",
        }
    }
}
