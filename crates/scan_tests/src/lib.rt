// Examples of reading, at the edges of every limit. They stand apart, since a crate with tests is proved twice.
#![tactic(auto)]

#[cfg(test)]
mod tests {
    use scan_report::report;
    use std::process::Abort;
    use std::test::Fail;

    // The table and its loop stand in `judge_tests` too: for both they would be a crate of their own, for a loop of three lines.
    struct Case {
        source: &'static str,
        report: &'static str,
    }

    static CASES: [Case; 34] = [
        // Nothing to read.
        Case {
            source: "",
            report: "accepted 0 tokens\n",
        },
        Case {
            source: " \n \n",
            report: "accepted 0 tokens\n",
        },
        // Tokens that touch, and runs that go on as long as they can.
        Case {
            source: "A:=1;",
            report: "0 name A\n1 sign :=\n3 constant 1\n4 sign ;\naccepted 4 tokens\n",
        },
        Case {
            source: "ABif12",
            report: "0 name AB\n2 word if\n4 constant 12\naccepted 3 tokens\n",
        },
        Case {
            source: "end end",
            report: "0 word end\n4 word end\naccepted 2 tokens\n",
        },
        Case {
            source: ":==",
            report: "0 sign :=\n2 sign =\naccepted 2 tokens\n",
        },
        Case {
            source: "+*=#(),;",
            report: "0 sign +\n1 sign *\n2 sign =\n3 sign #\n4 sign (\n5 sign )\n6 sign ,\n7 sign ;\naccepted 8 tokens\n",
        },
        Case {
            source: "\n  true",
            report: "3 word true\naccepted 1 tokens\n",
        },
        Case {
            source: "begin end int bool ref",
            report: "0 word begin\n6 word end\n10 word int\n14 word bool\n19 word ref\naccepted 5 tokens\n",
        },
        Case {
            source: "if then else fi while do",
            report: "0 word if\n3 word then\n8 word else\n13 word fi\n16 word while\n22 word do\naccepted 6 tokens\n",
        },
        Case {
            source: "input output true false",
            report: "0 word input\n6 word output\n13 word true\n18 word false\naccepted 4 tokens\n",
        },
        // Bytes that begin no token, and colons.
        Case {
            source: "A$",
            report: "refused 2 1\n",
        },
        Case {
            source: ":",
            report: "refused 2 0\n",
        },
        Case {
            source: "A :",
            report: "refused 2 2\n",
        },
        Case {
            source: ": =",
            report: "refused 2 0\n",
        },
        Case {
            source: "::=",
            report: "refused 2 0\n",
        },
        Case {
            source: "A:=:",
            report: "refused 2 3\n",
        },
        Case {
            source: "A\tB",
            report: "refused 2 1\n",
        },
        Case {
            source: "A<B",
            report: "refused 2 1\n",
        },
        // Small letters that form no word.
        Case {
            source: "x",
            report: "refused 3 0\n",
        },
        Case {
            source: "begins",
            report: "refused 3 0\n",
        },
        Case {
            source: "A endif",
            report: "refused 3 2\n",
        },
        Case {
            source: "whil",
            report: "refused 3 0\n",
        },
        // Names of 16 and of 17 letters.
        Case {
            source: "ABCDEFGHIJKLMNOP",
            report: "0 name ABCDEFGHIJKLMNOP\naccepted 1 tokens\n",
        },
        Case {
            source: " ABCDEFGHIJKLMNOPQ",
            report: "refused 4 1\n",
        },
        // Constants of 10 and of 11 digits, and on both sides of the greatest.
        Case {
            source: "0000000001",
            report: "0 constant 1\naccepted 1 tokens\n",
        },
        Case {
            source: "00000000001",
            report: "refused 5 0\n",
        },
        Case {
            source: "2147483647",
            report: "0 constant 2147483647\naccepted 1 tokens\n",
        },
        Case {
            source: "A 2147483648",
            report: "refused 5 2\n",
        },
        Case {
            source: "99999999999999999999999999",
            report: "refused 5 0\n",
        },
        // Two faults: the earlier place decides.
        Case {
            source: "x$",
            report: "refused 3 0\n",
        },
        Case {
            source: "$x",
            report: "refused 2 0\n",
        },
        Case {
            source: "ABCDEFGHIJKLMNOPQ 99999999999",
            report: "refused 4 0\n",
        },
        Case {
            source: "99999999999ABCDEFGHIJKLMNOPQ",
            report: "refused 5 0\n",
        },
    ];

    #[test]
    fn cases(rt: HostRuntime) -> Result<(), Fail> {
        for case in CASES.iter() {
            let text = report(rt.alloc(), case.source.as_bytes())?;
            assert_eq!(rt; text.as_str(), case.report, "{}", case.source);
        }
        Ok(())
    }

    // A byte stands alone as a token, parts tokens, or is refused.
    #[test]
    fn single_bytes(rt: HostRuntime) -> Result<(), Fail> {
        for byte in 0..=255u8 {
            let text = report(rt.alloc(), &[byte])?;
            let expected = match byte {
                b' ' | b'\n' => "accepted 0 tokens\n",
                b'a'..=b'z' => "refused 3 0\n",
                b'A'..=b'Z' | b'0'..=b'9' => continue,
                b';' | b',' | b'+' | b'*' | b'=' | b'#' | b'(' | b')' => continue,
                _ => "refused 2 0\n",
            };
            assert_eq!(rt; text.as_str(), expected);
        }
        Ok(())
    }

    // What is told of `count` times `byte` with `end` behind.
    fn ends(
        rt: &(impl Abort + AllocGlobal),
        byte: u8,
        count: usize,
        end: &[u8],
        expected: &str,
    ) -> Result<(), Fail> {
        let mut source = vec![in rt.alloc(); byte; count]?;
        source.extend_from_slice(end)?;
        let text = report(rt.alloc(), source.as_slice())?;
        assert!(rt; text.as_str().ends_with(expected), "{}", expected);
        Ok(())
    }

    #[test]
    fn limits(rt: HostRuntime) -> Result<(), Fail> {
        ends(&rt, b' ', 8192, b"", "accepted 0 tokens\n")?;
        ends(&rt, b' ', 8193, b"", "refused 1 0\n")?;
        ends(&rt, b' ', 8191, b"$", "refused 2 8191\n")?;
        ends(&rt, b'$', 8193, b"", "refused 1 0\n")?;
        ends(&rt, b';', 512, b"", "accepted 512 tokens\n")?;
        ends(&rt, b';', 513, b"", "refused 6 512\n")
    }

    // At the place of the 513th token its own fault goes first.
    #[test]
    fn past_the_last_token(rt: HostRuntime) -> Result<(), Fail> {
        ends(&rt, b';', 512, b"$", "refused 2 512\n")?;
        ends(&rt, b';', 512, b":", "refused 2 512\n")?;
        ends(&rt, b';', 512, b"x", "refused 3 512\n")?;
        ends(&rt, b';', 512, b" ABCDEFGHIJKLMNOPQ", "refused 4 513\n")?;
        ends(&rt, b';', 512, b"00000000001", "refused 5 512\n")?;
        ends(&rt, b';', 512, b" A $", "refused 6 513\n")
    }
}
