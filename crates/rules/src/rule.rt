// What a number rule is.
ghost use Rattle.std.specs.Prelude.{◌≡◌, ℕ, Option as Maybe};
ghost use Rattle.rules.specs.Law.{Law};

/// A number rule: its greatest value, and what a total and a product of two numbers come to under it.
pub trait NumberRule {
    /// The greatest value, from 1 to 2,147,483,647.
    const GREATEST: u32;

    ghost GREATEST: { ℕ };

    ghost sum: { ℕ → ℕ → Maybe ℕ };

    ghost prod: { ℕ → ℕ → Maybe ℕ };

    /// The total of two numbers, if the rule gives one.
    fn total(a: u32, b: u32) -> Option<u32>
        ensures { result ≡ sum a b };

    /// The product of two numbers, if the rule gives one.
    fn product(a: u32, b: u32) -> Option<u32>
        ensures { result ≡ prod a b };

    ghost lawful: { Law GREATEST sum prod };
}
