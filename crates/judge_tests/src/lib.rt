// Examples of judgements: every refusal at its edge, and pairs of faults whose order is fixed. They stand apart, since a
// crate with tests is proved twice.
#![tactic(auto)]

#[cfg(test)]
mod tests {
    use judge_report::report;
    use parser::train::Part;
    use refusals::{Failure, Numbered};
    use sheet::judge_source;
    use std::process::Abort;
    use std::test::Fail;

    // The table and its loop stand in `scan_tests` too: for both they would be a crate of their own, for a loop of three lines.
    struct Case {
        source: &'static str,
        report: &'static str,
    }

    static CASES: [Case; 72] = [
        // Programs that pass.
        Case {
            source: "begin int A; A := 1 end",
            report: "passed\nA int\n1 statements\n",
        },
        Case {
            source: "begin bool B, C; ref ref bool D; B := true; C := (B = B) + C end",
            report: "refused 12 52\n",
        },
        Case {
            source: "begin int X, Y, Z; input X; Y := 1; Z := 1; if (X # 0) then while (Z # X) do Z := Z + 1; Y := Y * Z end fi; output Y end",
            report: "passed\nX int\nY int\nZ int\n8 statements\n",
        },
        Case {
            source: "begin int A, B; ref int L; A := 5; B := 4; L := A; output L; L := B; output L end",
            report: "passed\nA int\nB int\nL ref int\n6 statements\n",
        },
        Case {
            source: "begin int A; if true then A := 1 else A := 2; input A fi end",
            report: "passed\nA int\n4 statements\n",
        },
        // Tokens that are not allowed, and sources that end early.
        Case {
            source: "",
            report: "refused 7 0\n",
        },
        Case {
            source: " ",
            report: "refused 7 1\n",
        },
        Case {
            source: "end",
            report: "refused 7 0\n",
        },
        Case {
            source: "begin",
            report: "refused 7 5\n",
        },
        Case {
            source: "begin end",
            report: "refused 7 6\n",
        },
        Case {
            source: "begin int A end",
            report: "refused 7 12\n",
        },
        Case {
            source: "begin int A;",
            report: "refused 7 12\n",
        },
        Case {
            source: "begin int A; end",
            report: "refused 7 13\n",
        },
        Case {
            source: "begin int A; A",
            report: "refused 7 14\n",
        },
        Case {
            source: "begin int A; A :=",
            report: "refused 7 17\n",
        },
        Case {
            source: "begin int A; A := 1",
            report: "refused 7 19\n",
        },
        Case {
            source: "begin int A; A := 1;",
            report: "refused 7 20\n",
        },
        Case {
            source: "begin int A; A := 1; end",
            report: "refused 7 21\n",
        },
        Case {
            source: "begin int A; A := 1 end end",
            report: "refused 7 24\n",
        },
        Case {
            source: "begin int A; A := 1 + end",
            report: "refused 7 22\n",
        },
        Case {
            source: "begin int A; A := (1 end",
            report: "refused 7 21\n",
        },
        Case {
            source: "begin int A; A := 1 = 1 end",
            report: "refused 7 20\n",
        },
        Case {
            source: "begin int A; A := (1 = 1 = 1) end",
            report: "refused 7 25\n",
        },
        Case {
            source: "begin int A; A := (1)) end",
            report: "refused 7 21\n",
        },
        Case {
            source: "begin int A; if A then A := 1 end",
            report: "refused 7 30\n",
        },
        Case {
            source: "begin int A; if A then A := 1 else A := 2 else A := 3 fi end",
            report: "refused 7 42\n",
        },
        Case {
            source: "begin int A; while A do A := 1 fi end",
            report: "refused 7 31\n",
        },
        Case {
            source: "begin int A; input 1 end",
            report: "refused 7 19\n",
        },
        Case {
            source: "begin int A; A := B C end",
            report: "refused 7 20\n",
        },
        Case {
            source: "begin A := 1 end",
            report: "refused 7 6\n",
        },
        Case {
            source: "begin int A, ; A := 1 end",
            report: "refused 7 13\n",
        },
        Case {
            source: "begin int int A; A := 1 end",
            report: "refused 7 10\n",
        },
        Case {
            source: "begin int A; int B, C; A := 1 end",
            report: "passed\nA int\nB int\nC int\n1 statements\n",
        },
        // Declarations: a name declared before.
        Case {
            source: "begin int A, A; A := 1 end",
            report: "refused 9 13\n",
        },
        Case {
            source: "begin int A; bool A; A := 1 end",
            report: "refused 9 18\n",
        },
        // Statements: names, operands, conditions, assignments.
        Case {
            source: "begin int A; B := 1 end",
            report: "refused 11 13\n",
        },
        Case {
            source: "begin int A; A := B end",
            report: "refused 11 18\n",
        },
        Case {
            source: "begin int A; B := C end",
            report: "refused 11 13\n",
        },
        Case {
            source: "begin int A; input B end",
            report: "refused 11 19\n",
        },
        Case {
            source: "begin int A; output B end",
            report: "refused 11 20\n",
        },
        Case {
            source: "begin int A; A := 1 + true end",
            report: "refused 12 20\n",
        },
        Case {
            source: "begin int A; A := (true = false) end",
            report: "refused 12 24\n",
        },
        Case {
            source: "begin int A; A := B + true end",
            report: "refused 11 18\n",
        },
        Case {
            source: "begin int A; A := (1 + true) * B end",
            report: "refused 12 21\n",
        },
        Case {
            source: "begin int A; if A then A := B fi end",
            report: "refused 12 13\n",
        },
        Case {
            source: "begin int A; while 1 do B := 1 end end",
            report: "refused 12 13\n",
        },
        Case {
            source: "begin int A; A := true end",
            report: "refused 13 13\n",
        },
        Case {
            source: "begin int A; A := (A = 1) end",
            report: "refused 13 13\n",
        },
        Case {
            source: "begin int A; ref int B; B := (A) end",
            report: "refused 14 24\n",
        },
        Case {
            source: "begin int A; ref int B; B := A end",
            report: "passed\nA int\nB ref int\n1 statements\n",
        },
        Case {
            source: "begin int A; ref int B; B := 1 end",
            report: "refused 14 24\n",
        },
        Case {
            source: "begin int A; ref int B; A := B end",
            report: "passed\nA int\nB ref int\n1 statements\n",
        },
        Case {
            source: "begin int A; ref ref int B; B := A end",
            report: "refused 14 28\n",
        },
        Case {
            source: "begin int A; ref bool B; B := A end",
            report: "refused 13 25\n",
        },
        Case {
            source: "begin int A; ref bool B; B := 1 end",
            report: "refused 13 25\n",
        },
        Case {
            source: "begin int A; ref int B; B := A + A end",
            report: "refused 14 24\n",
        },
        // Faults of an earlier phase go first, however late they stand.
        Case {
            source: "begin int A; int A; B := 1; $ end",
            report: "refused 2 28\n",
        },
        Case {
            source: "begin int A; int A; B := 1 1 end",
            report: "refused 7 27\n",
        },
        Case {
            source: "begin int A; int A; B := 1 end",
            report: "refused 9 17\n",
        },
        // Nesting at its limits.
        Case {
            source: "begin int A; A := ((((((((((((((((A)))))))))))))))) end",
            report: "passed\nA int\n1 statements\n",
        },
        Case {
            source: "begin int A; A := (((((((((((((((((A))))))))))))))))) end",
            report: "refused 8 34\n",
        },
        Case {
            source: "begin int A; A := (((((((((((((((((",
            report: "refused 8 34\n",
        },
        Case {
            source: "begin int A; A := 1 + ((((((((((((((((A)))))))))))))))) * ((((((((((((((((A)))))))))))))))) end",
            report: "passed\nA int\n1 statements\n",
        },
        Case {
            source: "begin int A; if true then if true then if true then if true then if true then if true then if true then if true then if true then if true then if true then if true then if true then if true then if true then if true then A := 1 fi fi fi fi fi fi fi fi fi fi fi fi fi fi fi fi end",
            report: "passed\nA int\n17 statements\n",
        },
        Case {
            source: "begin int A; if true then if true then if true then if true then if true then if true then if true then if true then if true then if true then if true then if true then if true then if true then if true then if true then if true then A := 1 fi fi fi fi fi fi fi fi fi fi fi fi fi fi fi fi fi end",
            report: "refused 8 221\n",
        },
        Case {
            source: "begin int A; while true do while true do while true do while true do while true do while true do while true do while true do while true do while true do while true do while true do while true do while true do while true do while true do A := 1 end end end end end end end end end end end end end end end end end",
            report: "passed\nA int\n17 statements\n",
        },
        Case {
            source: "begin int A; while true do while true do while true do while true do while true do while true do while true do while true do while true do while true do while true do while true do while true do while true do while true do while true do while true do A := 1 end end end end end end end end end end end end end end end end end end",
            report: "refused 8 237\n",
        },
        Case {
            source: "begin ref ref ref ref ref ref ref int A; input A end",
            report: "passed\nA ref ref ref ref ref ref ref int\n1 statements\n",
        },
        Case {
            source: "begin ref ref ref ref ref ref ref ref int A; input A end",
            report: "refused 8 34\n",
        },
        // 64 names, and one more.
        Case {
            source: "begin int NAA, NAB, NAC, NAD, NAE, NAF, NAG, NAH, NAI, NAJ, NAK, NAL, NAM, NAN, NAO, NAP, NAQ, NAR, NAS, NAT, NAU, NAV, NAW, NAX, NAY, NAZ, NBA, NBB, NBC, NBD, NBE, NBF, NBG, NBH, NBI, NBJ, NBK, NBL, NBM, NBN, NBO, NBP, NBQ, NBR, NBS, NBT, NBU, NBV, NBW, NBX, NBY, NBZ, NCA, NCB, NCC, NCD, NCE, NCF, NCG, NCH, NCI, NCJ, NCK, NCL, NCM; NAA := 1 end",
            report: "refused 10 330\n",
        },
        Case {
            source: "begin int NAA, NAB, NAC, NAD, NAE, NAF, NAG, NAH, NAI, NAJ, NAK, NAL, NAM, NAN, NAO, NAP, NAQ, NAR, NAS, NAT, NAU, NAV, NAW, NAX, NAY, NAZ, NBA, NBB, NBC, NBD, NBE, NBF, NBG, NBH, NBI, NBJ, NBK, NBL, NBM, NBN, NBO, NBP, NBQ, NBR, NBS, NBT, NBU, NBV, NBW, NBX, NBY, NBZ, NCA, NCB, NCC, NCD, NCE, NCF, NCG, NCH, NCI, NCJ, NCK, NCL, NAA; NAA := 1 end",
            report: "refused 9 330\n",
        },
        Case {
            source: "begin int NAA, NAB, NAC, NAD, NAE, NAF, NAG, NAH, NAI, NAJ, NAK, NAL, NAM, NAN, NAO, NAP, NAQ, NAR, NAS, NAT, NAU, NAV, NAW, NAX, NAY, NAZ, NBA, NBB, NBC, NBD, NBE, NBF, NBG, NBH, NBI, NBJ, NBK, NBL, NBM, NBN, NBO, NBP, NBQ, NBR, NBS, NBT, NBU, NBV, NBW, NBX, NBY, NBZ, NCA, NCB, NCC, NCD, NCE, NCF, NCG, NCH, NCI, NCJ, NCK, NCL; NAA := 1 end",
            report: "passed\nNAA int\nNAB int\nNAC int\nNAD int\nNAE int\nNAF int\nNAG int\nNAH int\nNAI int\nNAJ int\nNAK int\nNAL int\nNAM int\nNAN int\nNAO int\nNAP int\nNAQ int\nNAR int\nNAS int\nNAT int\nNAU int\nNAV int\nNAW int\nNAX int\nNAY int\nNAZ int\nNBA int\nNBB int\nNBC int\nNBD int\nNBE int\nNBF int\nNBG int\nNBH int\nNBI int\nNBJ int\nNBK int\nNBL int\nNBM int\nNBN int\nNBO int\nNBP int\nNBQ int\nNBR int\nNBS int\nNBT int\nNBU int\nNBV int\nNBW int\nNBX int\nNBY int\nNBZ int\nNCA int\nNCB int\nNCC int\nNCD int\nNCE int\nNCF int\nNCG int\nNCH int\nNCI int\nNCJ int\nNCK int\nNCL int\n1 statements\n",
        },
    ];

    #[test]
    fn cases(rt: HostRuntime) -> Result<(), Fail> {
        for case in CASES.iter() {
            let text = report(rt.alloc(), case.source.as_bytes())?;
            assert_eq!(rt; text.as_str(), case.report, "{}", case.source);
        }
        Ok(())
    }

    // What is told of `count` times `byte`.
    fn told(
        rt: &(impl Abort + AllocGlobal),
        byte: u8,
        count: usize,
        expected: &str,
    ) -> Result<(), Fail> {
        let source = vec![in rt.alloc(); byte; count]?;
        let text = report(rt.alloc(), source.as_slice())?;
        assert_eq!(rt; text.as_str(), expected);
        Ok(())
    }

    #[test]
    fn long_sources(rt: HostRuntime) -> Result<(), Fail> {
        told(&rt, b';', 512, "refused 7 0\n")?;
        told(&rt, b';', 513, "refused 6 512\n")?;
        told(&rt, b' ', 8192, "refused 7 8192\n")?;
        told(&rt, b' ', 8193, "refused 1 0\n")
    }

    // Too little memory for the open parts goes before everything else.
    #[test]
    fn short_memory(rt: HostRuntime) -> Result<(), Fail> {
        let mut few = [Part::Then; 15];
        match judge_source(rt.alloc(), b"$", &mut few) {
            Err(Failure::Refused(refusal)) => {
                assert_eq!(rt; refusal.fault.number(), 23);
                assert_eq!(rt; refusal.place, 0);
                Ok(())
            }
            _ => Err(Fail::new("not refused")),
        }
    }

    // What the memory holds at first decides nothing, and more of it than is needed changes nothing.
    #[test]
    fn any_memory(rt: HostRuntime) -> Result<(), Fail> {
        let mut many = [Part::Loop; 40];
        let source = b"begin int A; if true then A := 1 fi end";
        match judge_source(rt.alloc(), source, &mut many) {
            Ok(sheet) => {
                assert_eq!(rt; sheet.statements(), 2);
                assert_eq!(rt; sheet.tokens().len(), 12);
                assert_eq!(rt; sheet.declared().len(), 1);
                Ok(())
            }
            Err(_) => Err(Fail::new("refused")),
        }
    }
}
