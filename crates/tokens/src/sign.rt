// The nine signs of the language.
ghost use Rattle.std.specs.Prelude.{◌≡◌, Some};
ghost use Rattle.tokens.specs.Words.{spelling};

use std::fmt;

/// A sign: one byte, but for `:=`, which is two.
#[derive(Clone, Copy, PartialEq, Eq, Debug)]
pub enum Sign {
    Semicolon,
    Comma,
    Becomes,
    Plus,
    Star,
    Equals,
    Differs,
    Open,
    Close,
}

impl Sign {
    /// The sign as it is written.
    pub fn text(self) -> &'static str
        ensures { result.now ≡ spelling self }
    {
        match self {
            Sign::Semicolon => ";",
            Sign::Comma => ",",
            Sign::Becomes => ":=",
            Sign::Plus => "+",
            Sign::Star => "*",
            Sign::Equals => "=",
            Sign::Differs => "#",
            Sign::Open => "(",
            Sign::Close => ")",
        }
    }
}

impl fmt::Display for Sign {
    ghost output = { λ s. Some (spelling s) };

    fn fmt<W: fmt::Write>(&self, f: &mut fmt::Formatter<W>) -> fmt::Result {
        f.write_str(self.text())
    }
}
