// Rules that are known by what they give for an exact result.
ghost use Rattle.std.specs.Prelude.{◌≡◌, ◌+◌, ◌*◌, ℕ, ◌&&◌, if◌then◌else◌, nat_le, Some, None, Option as Maybe};
ghost use Rattle.rules.specs.Delivered.{under};
ghost use Rattle.rules.specs.Law.{Gives};

/// A rule that looks at nothing but the exact result, once both operands are at most its greatest value.
// Each delivered rule implements `NumberRule` itself. The checker evaluates a constant of a plain `impl` in a pattern, in another
// constant and in a length, and refuses one of a generic `impl` there.
pub trait ExactRule {
    /// The rule's greatest value, from 1 to 2,147,483,647: what a delivered rule has as its `GREATEST`.
    const LIMIT: u32;

    ghost LIMIT: { ℕ };

    ghost given: { ℕ → Maybe ℕ };

    /// What the rule gives for an exact result.
    fn give(exact: u64) -> Option<u32>
        ensures { result ≡ given exact };

    ghost gives: { Gives LIMIT given };
}

/// The total of two numbers under a rule that looks at the exact result alone, if it gives one: a delivered rule's own
/// `total`.
pub fn exact_total<R: ExactRule>(a: u32, b: u32) -> Option<u32>
    ensures { result ≡ under R.LIMIT R.given ◌+◌ a b }
{
    let (a, b) = operands(a, b, R::LIMIT)?;
    R::give(a + b)
}

/// The product of two numbers under a rule that looks at the exact result alone, if it gives one: a delivered rule's own
/// `product`.
pub fn exact_product<R: ExactRule>(a: u32, b: u32) -> Option<u32>
    ensures { result ≡ under R.LIMIT R.given ◌*◌ a b }
{
    let (a, b) = operands(a, b, R::LIMIT)?;
    R::give(a * b)
}

/// Both operands in 64 bits, so that their total and their product are exact; none if one is above the greatest value.
fn operands(a: u32, b: u32, greatest: u32) -> Option<(u64, u64)>
    ensures { result ≡ (if nat_le a greatest && nat_le b greatest then Some (a, b) else None) }
{
    (a <= greatest && b <= greatest).then_some((u64::from(a), u64::from(b)))
}
