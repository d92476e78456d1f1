// The token reader: a machine that moves by the class of the next byte alone.
ghost use Rattle.std.specs.Prelude.{◌≡◌};
ghost use Rattle.tokens.specs.Machine.{grows, state_after, start_after, step_at, begun};

use crate::class::Class;
use crate::fault::Fault;
use crate::sign::Sign;

/// The runs that are as long as they can be: capitals, small letters, digits.
#[derive(Clone, Copy)]
pub enum Run {
    Name,
    Word,
    Number,
}

impl Run {
    /// Whether a byte of this class makes the run longer.
    fn grows(self, class: Class) -> bool
        ensures { result ≡ grows self class }
    {
        matches!(
            (self, class),
            (Run::Name, Class::Capital) | (Run::Word, Class::Small) | (Run::Number, Class::Digit)
        )
    }
}

/// Where the reader is: between tokens, in a name, a word or a number, or after a colon.
// A state, and no closure for the next step: what a byte does is to be told by the state and the byte's class alone.
#[derive(Clone, Copy)]
pub enum State {
    Between,
    In(Run),
    AfterColon,
}

/// What one byte brings: the run that ended before it, and the sign that it completes itself, or its fault.
#[derive(Clone, Copy)]
pub struct Step {
    pub ended: Option<Run>,
    pub found: Result<Option<Sign>, Fault>,
}

/// The reader's state, and the place at which what it is reading began.
#[derive(Clone, Copy)]
pub struct Reader {
    pub state: State,
    pub start: usize,
}

/// What a byte of a class begins where no token is open.
fn begin(class: Class) -> (State, Result<Option<Sign>, Fault>)
    ensures { result ≡ begun class }
{
    match class {
        Class::Blank => (State::Between, Ok(None)),
        Class::Capital => (State::In(Run::Name), Ok(None)),
        Class::Small => (State::In(Run::Word), Ok(None)),
        Class::Digit => (State::In(Run::Number), Ok(None)),
        Class::Sign(sign) => (State::Between, Ok(Some(sign))),
        Class::Colon => (State::AfterColon, Ok(None)),
        Class::Other => (State::Between, Err(Fault::NoToken)),
    }
}

impl Reader {
    /// Takes the byte at `at`, known by its class.
    pub fn advance(&mut self, at: usize, class: Class) -> Step
        ensures state { self.new.state ≡ state_after self.old.state class }
        ensures start { self.new.start ≡ start_after self.old.state class self.old.start at }
        ensures step { result ≡ step_at self.old.state class }
    {
        match (self.state, class) {
            (State::In(run), _) if run.grows(class) => Step {
                ended: None,
                found: Ok(None),
            },
            (State::In(run), _) => Step {
                ended: Some(run),
                found: self.restart(at, class),
            },
            (State::Between, _) => Step {
                ended: None,
                found: self.restart(at, class),
            },
            (State::AfterColon, Class::Sign(Sign::Equals)) => {
                self.state = State::Between;
                Step {
                    ended: None,
                    found: Ok(Some(Sign::Becomes)),
                }
            }
            (State::AfterColon, _) => {
                self.state = State::Between;
                Step {
                    ended: None,
                    found: Err(Fault::NoToken),
                }
            }
        }
    }

    /// Takes the byte at `at` as the first of something new.
    fn restart(&mut self, at: usize, class: Class) -> Result<Option<Sign>, Fault>
        ensures state { self.new.state ≡ (begun class).0 }
        ensures start { self.new.start ≡ at }
        ensures found { result ≡ (begun class).1 }
    {
        let (state, found) = begin(class);
        self.state = state;
        self.start = at;
        found
    }
}
