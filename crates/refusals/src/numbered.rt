// Faults are told by number.
ghost use Rattle.std.specs.Prelude.{◌≡◌, ℕ};

/// A fault that a refusal tells by a number.
pub trait Numbered {
    ghost number_of: { Self → ℕ };

    /// The number by which a refusal tells the fault.
    fn number(self) -> u8
        ensures { result ≡ number_of self };
}
