// The fifteen words of the language.
ghost use Rattle.std.specs.Prelude.{◌≡◌, Some};
ghost use Rattle.tokens.specs.Words.{Spells, letters, word_of};

use std::fmt;

/// A word of the language.
#[derive(Clone, Copy, PartialEq, Eq, Debug)]
pub enum Word {
    Begin,
    End,
    Int,
    Bool,
    Ref,
    If,
    Then,
    Else,
    Fi,
    While,
    Do,
    Input,
    Output,
    True,
    False,
}

impl Word {
    /// The word that a run of small letters forms, if it forms one.
    // A function, and no `TryFrom<&[u8]>`, whose error would say what `None` says.
    pub fn of_run(run: &[u8]) -> Option<Word>
        ensures defined { result ≡ word_of run.now }
        ensures spelt { Spells run.now result }
    {
        Word::first_like(run)
    }

    // Apart from `of_run`, since `spelt` is proved from this clause.
    fn first_like(run: &[u8]) -> Option<Word>
        ensures { result ≡ word_of run.now }
    {
        match run {
            b"begin" => Some(Word::Begin),
            b"end" => Some(Word::End),
            b"int" => Some(Word::Int),
            b"bool" => Some(Word::Bool),
            b"ref" => Some(Word::Ref),
            b"if" => Some(Word::If),
            b"then" => Some(Word::Then),
            b"else" => Some(Word::Else),
            b"fi" => Some(Word::Fi),
            b"while" => Some(Word::While),
            b"do" => Some(Word::Do),
            b"input" => Some(Word::Input),
            b"output" => Some(Word::Output),
            b"true" => Some(Word::True),
            b"false" => Some(Word::False),
            _ => None,
        }
    }

    /// The letters of a word.
    pub fn text(self) -> &'static str
        ensures { result.now ≡ letters self }
    {
        match self {
            Word::Begin => "begin",
            Word::End => "end",
            Word::Int => "int",
            Word::Bool => "bool",
            Word::Ref => "ref",
            Word::If => "if",
            Word::Then => "then",
            Word::Else => "else",
            Word::Fi => "fi",
            Word::While => "while",
            Word::Do => "do",
            Word::Input => "input",
            Word::Output => "output",
            Word::True => "true",
            Word::False => "false",
        }
    }
}

impl fmt::Display for Word {
    ghost output = { λ w. Some (letters w) };

    fn fmt<W: fmt::Write>(&self, f: &mut fmt::Formatter<W>) -> fmt::Result {
        f.write_str(self.text())
    }
}
