// Declarations.
ghost use Rattle.std.specs.Prelude.{◌≡◌, ℕ, List, []};
ghost use Rattle.grammar.specs.Machine.{between, in_mode, inside, moding, naming, wanted};
ghost use Rattle.grammar.specs.Tree as tree;
ghost use Rattle.outline.specs.Names.{primitive_of};
ghost use Rattle.parser.specs.Declarations.{Declares, Modes, Moding, Names, declared, moded};
ghost use Rattle.tokens.specs.Tokens.{kind_of};

use crate::fault::Fault;
use crate::parser::Parser;
use outline::declared::{Declared, Primitive};
use refusals::Failure;
use tokens::sign::Sign;
use tokens::token::TokenKind;
use tokens::word::Word;

const MOST_REFS: usize = 7;

/// A token of a mode.
#[derive(Clone, Copy)]
pub(crate) enum ModeWord {
    Ref,
    Primitive(Primitive),
}

/// A mode that has been read.
// A declared name has both as fields of its own, since a sheet shows them so.
#[derive(Clone, Copy)]
pub(crate) struct Mode {
    refs: usize,
    primitive: Primitive,
}

/// What follows a declared name.
#[derive(Clone, Copy)]
pub(crate) enum After {
    Comma,
    Semicolon,
}

pub(crate) fn mode_word(kind: TokenKind<'_>) -> Option<ModeWord>
    ensures { (ds : List tree.Declared) (refs : ℕ) → in_mode ds refs (kind_of kind.entry) ≡ moded ds refs result }
{
    match kind {
        TokenKind::Word(Word::Ref) => Some(ModeWord::Ref),
        TokenKind::Word(Word::Int) => Some(ModeWord::Primitive(Primitive::Int)),
        TokenKind::Word(Word::Bool) => Some(ModeWord::Primitive(Primitive::Bool)),
        TokenKind::Word(_) => None,
        TokenKind::Sign(_) => None,
        TokenKind::Name(_) => None,
        TokenKind::Constant(_) => None,
    }
}

impl<'t, 'a> Parser<'t, 'a, Declared<'a>> {
    /// All declarations, up to the first token of a statement.
    pub(crate) fn declarations(&mut self) -> Result<(), Failure<Fault>>
        ensures { Declares (moding (declared self.old) 0) (λ ds. inside ds [] [] wanted) self.old result self.new }
    {
        self.declaration()?;
        while self.mode_begins() {
            self.declaration()?;
        }
        Ok(())
    }

    /// One declaration, and its `;`.
    fn declaration(&mut self) -> Result<(), Failure<Fault>>
        ensures { Declares (moding (declared self.old) 0) between self.old result self.new }
    {
        let mode = self.mode()?;
        self.names(mode)
    }

    /// A mode: some `ref`, and `int` or `bool`.
    fn mode(&mut self) -> Result<Mode, Failure<Fault>>
        ensures { Modes self.old result self.new }
    {
        let mut refs = 0;
        loop {
            let token = self.next()?;
            match mode_word(token.kind) {
                Some(ModeWord::Ref) if refs < MOST_REFS => refs += 1,
                Some(ModeWord::Ref) => return Err(Failure::refused(Fault::TooDeep, token.place)),
                Some(ModeWord::Primitive(primitive)) => return Ok(Mode { refs, primitive }),
                None => return Err(Failure::refused(Fault::NotAllowed, token.place)),
            }
        }
    }

    /// The names of a declaration, and its `;`.
    fn names(&mut self, mode: Mode) -> Result<(), Failure<Fault>>
        ensures { Declares (naming (declared self.old) mode.refs (primitive_of mode.primitive)) between self.old result self.new }
    {
        loop {
            match self.name(mode)? {
                After::Comma => {}
                After::Semicolon => return Ok(()),
            }
        }
    }

    /// One declared name, and the sign behind it.
    fn name(&mut self, mode: Mode) -> Result<After, Failure<Fault>>
        ensures { Names mode self.old result self.new }
    {
        let token = self.next()?;
        let TokenKind::Name(name) = token.kind else {
            return Err(Failure::refused(Fault::NotAllowed, token.place));
        };
        let declared = Declared {
            place: token.place,
            name,
            refs: mode.refs,
            primitive: mode.primitive,
        };
        self.out.push(declared)?;
        let sign = self.next()?;
        match sign.kind {
            TokenKind::Sign(Sign::Comma) => Ok(After::Comma),
            TokenKind::Sign(Sign::Semicolon) => Ok(After::Semicolon),
            _ => Err(Failure::refused(Fault::NotAllowed, sign.place)),
        }
    }

    /// Whether a mode begins here.
    fn mode_begins(&self) -> bool
        ensures { Moding self.now result }
    {
        self.rest
            .first()
            .is_some_and(|token| mode_word(token.kind).is_some())
    }
}
