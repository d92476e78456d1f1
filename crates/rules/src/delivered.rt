// The rules that are delivered.
ghost use Rattle.std.specs.Prelude.{◌≡◌, ◌+◌, ◌*◌};
ghost use Rattle.rules.specs.Delivered.{capped, strict, turning, under};
ghost use Rattle.std.proofs.Common.{rules};

use crate::exact::{ExactRule, exact_product, exact_total};
use crate::rule::NumberRule;

const NARROW: u32 = 65_535;

const WIDE: u32 = 2_147_483_647;

/// Numbers up to 65,535; above it there is no result.
// A type of its own beside `WideStrict`: with a constant as a parameter the law would be false at 0, and a type that carries the
// constant with a proof of its bounds would be longer than this.
pub struct NarrowStrict;

impl ExactRule for NarrowStrict {
    const LIMIT: u32 = NARROW;

    ghost LIMIT = { 65535 };

    ghost given = { strict 65535 };

    fn give(exact: u64) -> Option<u32> {
        up_to(NARROW, exact)
    }

    ghost gives = { Prim.search rules };
}

impl NumberRule for NarrowStrict {
    const GREATEST: u32 = NARROW;

    ghost GREATEST = { 65535 };

    ghost sum = { under 65535 (strict 65535) ◌+◌ };

    ghost prod = { under 65535 (strict 65535) ◌*◌ };

    fn total(a: u32, b: u32) -> Option<u32> {
        exact_total::<NarrowStrict>(a, b)
    }

    fn product(a: u32, b: u32) -> Option<u32> {
        exact_product::<NarrowStrict>(a, b)
    }

    ghost lawful = { Prim.search rules };
}

/// Numbers up to 2,147,483,647; above it there is no result.
pub struct WideStrict;

impl ExactRule for WideStrict {
    const LIMIT: u32 = WIDE;

    ghost LIMIT = { 2147483647 };

    ghost given = { strict 2147483647 };

    fn give(exact: u64) -> Option<u32> {
        up_to(WIDE, exact)
    }

    ghost gives = { Prim.search rules };
}

impl NumberRule for WideStrict {
    const GREATEST: u32 = WIDE;

    ghost GREATEST = { 2147483647 };

    ghost sum = { under 2147483647 (strict 2147483647) ◌+◌ };

    ghost prod = { under 2147483647 (strict 2147483647) ◌*◌ };

    fn total(a: u32, b: u32) -> Option<u32> {
        exact_total::<WideStrict>(a, b)
    }

    fn product(a: u32, b: u32) -> Option<u32> {
        exact_product::<WideStrict>(a, b)
    }

    ghost lawful = { Prim.search rules };
}

/// Numbers up to 65,535; above it the result is 65,535.
pub struct Capped;

impl ExactRule for Capped {
    const LIMIT: u32 = NARROW;

    ghost LIMIT = { 65535 };

    ghost given = { capped 65535 };

    fn give(exact: u64) -> Option<u32> {
        Some(exact.min(u64::from(NARROW)) as u32)
    }

    ghost gives = { Prim.search rules };
}

impl NumberRule for Capped {
    const GREATEST: u32 = NARROW;

    ghost GREATEST = { 65535 };

    ghost sum = { under 65535 (capped 65535) ◌+◌ };

    ghost prod = { under 65535 (capped 65535) ◌*◌ };

    fn total(a: u32, b: u32) -> Option<u32> {
        exact_total::<Capped>(a, b)
    }

    fn product(a: u32, b: u32) -> Option<u32> {
        exact_product::<Capped>(a, b)
    }

    ghost lawful = { Prim.search rules };
}

/// Numbers up to 65,535; above it the result is the remainder by 65,536.
pub struct Turning;

impl ExactRule for Turning {
    const LIMIT: u32 = NARROW;

    ghost LIMIT = { 65535 };

    ghost given = { turning 65535 };

    fn give(exact: u64) -> Option<u32> {
        Some((exact % (u64::from(NARROW) + 1)) as u32)
    }

    ghost gives = { Prim.search rules };
}

impl NumberRule for Turning {
    const GREATEST: u32 = NARROW;

    ghost GREATEST = { 65535 };

    ghost sum = { under 65535 (turning 65535) ◌+◌ };

    ghost prod = { under 65535 (turning 65535) ◌*◌ };

    fn total(a: u32, b: u32) -> Option<u32> {
        exact_total::<Turning>(a, b)
    }

    fn product(a: u32, b: u32) -> Option<u32> {
        exact_product::<Turning>(a, b)
    }

    ghost lawful = { Prim.search rules };
}

/// An exact result, or none above the greatest value.
fn up_to(greatest: u32, exact: u64) -> Option<u32>
    ensures { result ≡ strict greatest exact }
{
    u32::try_from(exact).ok().filter(|n| *n <= greatest)
}
