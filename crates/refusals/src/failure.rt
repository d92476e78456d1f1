// Why a phase of judging gave nothing.
ghost use Rattle.std.specs.Prelude.{◌≡◌, alloc_error};
ghost use Rattle.refusals.specs.Widened.{Widened};
ghost use Rattle.refusals.specs.declared.failure.Failure.TheVariants.{Memory, Refused};

use crate::refusal::Refusal;
use std::alloc::{AllocError, AllocFailed};

/// Why a phase gave nothing: the source is refused, or heap memory ran out, which says nothing of the source.
#[derive(Clone, Copy, PartialEq, Eq, Debug)]
pub enum Failure<F> {
    Refused(Refusal<F>),
    Memory(AllocError),
}

impl<F> Failure<F> {
    /// The refusal of a fault at a place.
    pub fn refused(fault: F, place: usize) -> Failure<F>
        ensures { result ≡ Refused (record { fault = fault; place = place }) }
    {
        Failure::Refused(Refusal { fault, place })
    }

    /// The same failure, with its fault as one of a wider type.
    pub fn widen<G: From<F>>(self) -> Failure<G>
        ensures { Widened G.from_gives self result }
    {
        match self {
            Failure::Refused(refusal) => Failure::refused(G::from(refusal.fault), refusal.place),
            Failure::Memory(error) => Failure::Memory(error),
        }
    }
}

impl<F, G: From<F>> From<Refusal<F>> for Failure<G> {
    ghost from_gives = { λ x r. Widened G.from_gives (Refused x) r };

    fn from(refusal: Refusal<F>) -> Failure<G> {
        Failure::Refused(refusal).widen()
    }
}

impl<F> From<AllocError> for Failure<F> {
    ghost from_gives = { λ e r. r ≡ Memory e };

    fn from(error: AllocError) -> Failure<F> {
        Failure::Memory(error)
    }
}

impl<F, T: Drop> From<AllocFailed<T>> for Failure<F> {
    ghost from_gives = { λ _ r. r ≡ Memory alloc_error };

    fn from(failed: AllocFailed<T>) -> Failure<F> {
        Failure::Memory(AllocError::from(failed))
    }
}
