// The report of a judgement, as text.
#![tactic(auto)]

ghost use Rattle.std.specs.Prelude.{◌≡◌, ◌++◌, IfOk, OnOk, Some, codes, decimal, map, string_bytes};
ghost use Rattle.grammar.specs.Tree.{Train};
ghost use Rattle.judge_report.specs.Report.{mode_text, name_lines, report_of};
ghost use Rattle.outline.specs.Code.{flats};
ghost use Rattle.outline.specs.Names.{declared_of, primitive_of};
ghost use Rattle.sheet.specs.Judging.{judging};
ghost use Rattle.sheet.specs.Sizes.{code_in, names_in, size};

use outline::declared::{Declared, Primitive};
use parser::train::{MOST_PARTS, Part};
use refusals::Failure;
use sheet::{Sheet, judge_source};
use std::alloc::{AllocError, Global};
use std::fmt;

/// The report on a source. Only want of heap memory is an `Err`.
pub fn report(heap: Global, source: &[u8]) -> Result<String, AllocError>
    ensures { IfOk result (λ s. string_bytes s ≡ report_of (judging 16 source.now)) }
{
    let mut memory = [Part::Then; MOST_PARTS];
    match judge_source(heap, source, &mut memory) {
        Ok(sheet) => passed_report(heap, &sheet),
        Err(Failure::Refused(refusal)) => format!(in heap; "{refusal}\n"),
        Err(Failure::Memory(error)) => Err(error),
    }
}

fn passed_report(heap: Global, sheet: &Sheet<'_>) -> Result<String, AllocError>
    ensures { IfOk result (λ s. (body : Train) → code_in sheet.now ≡ flats body → string_bytes s ≡ codes "passed\n" ++ (name_lines (names_in sheet.now) ++ (decimal (size body) ++ codes " statements\n"))) }
{
    let mut out = String::from_str(heap, "passed\n")?;
    add_names(&mut out, sheet.declared())?;
    let count = sheet.statements();
    writeln!(out, "{count} statements")?;
    Ok(out)
}

fn add_names(out: &mut String, declared: &[Declared<'_>]) -> Result<(), AllocError>
    ensures { OnOk result (string_bytes out.new ≡ string_bytes out.old ++ name_lines (map declared_of declared.now)) }
{
    for name in declared {
        let letters = name.name;
        let mode = Mode(name.refs, name.primitive);
        writeln!(out, "{letters} {mode}")?;
    }
    Ok(())
}

/// The mode of a name as the report has it: so many `ref`, and the primitive mode.
#[derive(Clone, Copy)]
struct Mode(usize, Primitive);

impl fmt::Display for Mode {
    ghost output = { λ m. Some (mode_text m.0 (primitive_of m.1)) };

    fn fmt<W: fmt::Write>(&self, f: &mut fmt::Formatter<W>) -> fmt::Result {
        for _written in 0..self.0 {
            f.write_str("ref ")?;
        }
        f.write_str(match self.1 {
            Primitive::Int => "int",
            Primitive::Bool => "bool",
        })
    }
}
