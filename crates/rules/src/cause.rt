// A rule's answers with their cause: code over any rule, that rests on the rules' law alone.
ghost use Rattle.std.specs.Prelude.{◌≡◌, ◌+◌, ◌*◌};
ghost use Rattle.rules.specs.Answers.{Answers};
ghost use Rattle.rules.specs.declared.cause.Cause.TheVariants.{Product, Total};
ghost use Rattle.std.specs.Option.{ok_or};

use crate::rule::NumberRule;

/// Why a rule gave no number: it was asked for a total, or for a product.
#[derive(Clone, Copy, PartialEq, Eq, Debug)]
pub enum Cause {
    Total,
    Product,
}

/// The total of two numbers under the rule `R`, or the cause.
pub fn try_total<R: NumberRule>(a: u32, b: u32) -> Result<u32, Cause>
    ensures defined { result ≡ ok_or (R.sum a b) Total }
    ensures lawful { Answers R.GREATEST ◌+◌ a b result }
{
    R::total(a, b).ok_or(Cause::Total)
}

/// The product of two numbers under the rule `R`, or the cause.
pub fn try_product<R: NumberRule>(a: u32, b: u32) -> Result<u32, Cause>
    ensures defined { result ≡ ok_or (R.prod a b) Product }
    ensures lawful { Answers R.GREATEST ◌*◌ a b result }
{
    R::product(a, b).ok_or(Cause::Product)
}
