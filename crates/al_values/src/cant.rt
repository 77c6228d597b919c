use std::alloc::{AllocError, AllocFailed};

/// No memory was to be had for a call that has no other cause to fail.
#[derive(Clone, Copy, Debug, PartialEq, Eq)]
pub struct NoMemory;

impl From<AllocError> for NoMemory {
    fn from(_error: AllocError) -> NoMemory {
        NoMemory
    }
}

impl<T: Drop> From<AllocFailed<T>> for NoMemory {
    fn from(_error: AllocFailed<T>) -> NoMemory {
        NoMemory
    }
}

/// Why a call was refused: for a cause of its own, or for want of memory.
#[derive(Clone, Copy, Debug, PartialEq, Eq, Drop)]
pub enum Cant<E> {
    /// The call's own cause.
    Why(E),
    /// No memory was to be had.
    NoMemory,
}

impl<E> From<NoMemory> for Cant<E> {
    ghost use Rattle.std.specs.Prelude.{◌≡◌};
    ghost use Rattle.al_values.specs.declared.cant.Cant.TheVariants as cants;

    ghost from_gives = { λ _ e. e ≡ cants.NoMemory };

    fn from(_error: NoMemory) -> Cant<E> {
        Cant::NoMemory
    }
}

impl<E> From<AllocError> for Cant<E> {
    ghost use Rattle.std.specs.Prelude.{◌≡◌};
    ghost use Rattle.al_values.specs.declared.cant.Cant.TheVariants as cants;

    ghost from_gives = { λ _ e. e ≡ cants.NoMemory };

    fn from(_error: AllocError) -> Cant<E> {
        Cant::NoMemory
    }
}

impl<T: Drop, E> From<AllocFailed<T>> for Cant<E> {
    ghost use Rattle.std.specs.Prelude.{◌≡◌};
    ghost use Rattle.al_values.specs.declared.cant.Cant.TheVariants as cants;

    ghost from_gives = { λ _ e. e ≡ cants.NoMemory };

    fn from(_error: AllocFailed<T>) -> Cant<E> {
        Cant::NoMemory
    }
}
