// Examples of the delivered rules at their edges. They stand apart, since a crate with tests is proved twice.
#![tactic(auto)]

ghost use Rattle.std.specs.Prelude.{◌≡◌, ◌+◌, ◌*◌};
ghost use Rattle.rules.specs.Delivered.{capped, strict, turning, under};

#[cfg(test)]
mod tests {
    use rules::cause::{Cause, try_product, try_total};
    use rules::{Capped, NarrowStrict, NumberRule, Turning, WideStrict};

    const NARROW: u32 = NarrowStrict::GREATEST;

    const _: () = prove!(WideStrict::GREATEST == 2_147_483_647);

    /// What the four rules answer: narrow strict, wide strict, capped and turning.
    type Answers = (Option<u32>, Option<u32>, Option<u32>, Option<u32>);

    // The clauses of these two are what a caller who names a rule knows of it, on all pairs of numbers.
    fn totals(a: u32, b: u32) -> Answers
        ensures narrow { result.0 ≡ under 65535 (strict 65535) ◌+◌ a b }
        ensures wide { result.1 ≡ under 2147483647 (strict 2147483647) ◌+◌ a b }
        ensures capped { result.2 ≡ under 65535 (capped 65535) ◌+◌ a b }
        ensures turning { result.3 ≡ under 65535 (turning 65535) ◌+◌ a b }
    {
        (
            NarrowStrict::total(a, b),
            WideStrict::total(a, b),
            Capped::total(a, b),
            Turning::total(a, b),
        )
    }

    fn products(a: u32, b: u32) -> Answers
        ensures narrow { result.0 ≡ under 65535 (strict 65535) ◌*◌ a b }
        ensures wide { result.1 ≡ under 2147483647 (strict 2147483647) ◌*◌ a b }
        ensures capped { result.2 ≡ under 65535 (capped 65535) ◌*◌ a b }
        ensures turning { result.3 ≡ under 65535 (turning 65535) ◌*◌ a b }
    {
        (
            NarrowStrict::product(a, b),
            WideStrict::product(a, b),
            Capped::product(a, b),
            Turning::product(a, b),
        )
    }

    #[test]
    fn totals_at_the_edges(rt: HostRuntime) {
        for (a, b, want) in [
            (0, 0, (Some(0), Some(0), Some(0), Some(0))),
            (
                65_535,
                0,
                (Some(65_535), Some(65_535), Some(65_535), Some(65_535)),
            ),
            (65_535, 1, (None, Some(65_536), Some(65_535), Some(0))),
            (
                65_535,
                65_535,
                (None, Some(131_070), Some(65_535), Some(65_534)),
            ),
            (65_536, 0, (None, Some(65_536), None, None)),
            (0, 65_536, (None, Some(65_536), None, None)),
            (2_147_483_647, 0, (None, Some(2_147_483_647), None, None)),
            (2_147_483_647, 1, (None, None, None, None)),
            (2_147_483_648, 0, (None, None, None, None)),
            (0, 2_147_483_648, (None, None, None, None)),
            (4_294_967_295, 4_294_967_295, (None, None, None, None)),
        ] {
            assert_eq!(rt; totals(a, b), want, "at {a} {b}");
        }
    }

    #[test]
    fn products_at_the_edges(rt: HostRuntime) {
        for (a, b, want) in [
            (
                255,
                257,
                (Some(65_535), Some(65_535), Some(65_535), Some(65_535)),
            ),
            (256, 256, (None, Some(65_536), Some(65_535), Some(0))),
            (65_535, 65_535, (None, None, Some(65_535), Some(1))),
            (65_536, 0, (None, Some(0), None, None)),
            (0, 65_536, (None, Some(0), None, None)),
            (46_341, 46_341, (None, None, Some(65_535), Some(4_633))),
            (2_147_483_647, 1, (None, Some(2_147_483_647), None, None)),
            (2_147_483_648, 1, (None, None, None, None)),
            (0, 2_147_483_648, (None, None, None, None)),
            (4_294_967_295, 4_294_967_295, (None, None, None, None)),
        ] {
            assert_eq!(rt; products(a, b), want, "at {a} {b}");
        }
    }

    #[test]
    fn causes_and_greatest_values(rt: HostRuntime) {
        assert_eq!(rt; try_total::<NarrowStrict>(65_535, 0), Ok(65_535));
        assert_eq!(rt; try_total::<NarrowStrict>(65_535, 1), Err(Cause::Total));
        assert_eq!(rt; try_total::<Turning>(65_535, 1), Ok(0));
        assert_eq!(rt;
            try_product::<WideStrict>(65_536, 32_768),
            Err(Cause::Product)
        );
        assert_eq!(rt; try_product::<Capped>(256, 256), Ok(65_535));
        assert_eq!(rt; try_product::<Capped>(65_536, 0), Err(Cause::Product));
        assert_eq!(rt; NarrowStrict::GREATEST, 65_535);
        assert_eq!(rt; WideStrict::GREATEST, 2_147_483_647);
        assert_eq!(rt; Capped::GREATEST, 65_535);
        assert_eq!(rt; Turning::GREATEST, 65_535);
    }
    // A rule's greatest value is a constant in other crates too: for a constant, for a proof at compile time, and in a pattern.
    #[test]
    fn greatest_values_are_constants(rt: HostRuntime) {
        assert_eq!(rt; NARROW, 65_535);
        assert!(rt; matches!(65_535u32, Capped::GREATEST));
        assert!(rt; !matches!(65_536u32, Turning::GREATEST));
    }
}
