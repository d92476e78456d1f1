// The report on the readings of a source, as text.
#![tactic(auto)]

ghost use Rattle.std.specs.Prelude.{◌≡◌, ◌++◌, IfOk, OnOk, codes, string_bytes};
ghost use Rattle.readings_report.specs.Report.{lines, probe_number, probed, readings_text, report_of};
ghost use Rattle.text_host.specs.Items.{items};

mod shown;
mod tally;

use crate::shown::Shown;
use crate::tally::Tally;
use hosts::Host;
use hosts::exchange::{Item, Value};
use probe_host::ProbeHost;
use std::alloc::{AllocError, Global};
use text_host::TextHost;

/// The number that a probe cannot read.
const NO_NUMBER: u32 = 4_294_967_295;

/// The report on a source: its readings, and the same readings through a probe. Only want of heap memory is an `Err`.
pub fn report(heap: Global, source: &[u8]) -> Result<String, AllocError>
    ensures { IfOk result (λ s. string_bytes s ≡ report_of source.now) }
{
    match TextHost::over(source, &mut [], 0) {
        Ok(mut host) => {
            let readings = read_all(heap, &mut host)?;
            readings_report(heap, readings.as_slice())
        }
        Err(refusal) => format!(in heap; "{refusal}\n"),
    }
}

fn readings_report(heap: Global, readings: &[Item]) -> Result<String, AllocError>
    ensures { IfOk result (λ s. string_bytes s ≡ readings_text readings.now ++ (codes "probe\n" ++ probed readings.now)) }
{
    let mut out = String::new(heap);
    add_readings(&mut out, readings)?;
    out.push_str("probe\n")?;
    add_probed(heap, &mut out, readings)?;
    Ok(out)
}

/// Reads all that is left of a host.
fn read_all<H: Host>(heap: Global, host: &mut H) -> Result<Vec<Item>, AllocError>
    ensures { IfOk result (λ v. v.items ≡ H.left host.old) }
{
    let mut items = Vec::new(heap);
    while let Some(item) = host.front() {
        items.push(item)?;
        host.take();
    }
    Ok(items)
}

/// Adds the readings, each on a line, and how many there are of each kind.
fn add_readings(out: &mut String, readings: &[Item]) -> Result<(), AllocError>
    ensures { OnOk result (string_bytes out.new ≡ string_bytes out.old ++ readings_text readings.now) }
{
    add_lines(out, readings)?;
    let tally = Tally::of(readings);
    writeln!(out, "{tally}")
}

fn add_lines(out: &mut String, readings: &[Item]) -> Result<(), AllocError>
    ensures { OnOk result (string_bytes out.new ≡ string_bytes out.old ++ lines readings.now) }
{
    for item in readings {
        writeln!(out, "{}", Shown(*item))?;
    }
    Ok(())
}

/// Adds the readings as a probe reads them.
fn add_probed(heap: Global, out: &mut String, readings: &[Item]) -> Result<(), AllocError>
    ensures { OnOk result (string_bytes out.new ≡ string_bytes out.old ++ probed readings.now) }
{
    let numbers: Vec<u32> = readings
        .iter()
        .map(|item| probe_number(*item))
        .collect(heap)?;
    match ProbeHost::over(numbers.as_slice(), &mut [], 0) {
        Ok(mut host) => {
            let probed = read_all(heap, &mut host)?;
            add_readings(out, probed.as_slice())
        }
        Err(refusal) => writeln!(out, "{refusal}"),
    }
}

/// The number by which a probe is given an item. Each number is given as itself; a probe can be given neither a truth nor what
/// cannot be read, so these are given as the number that it cannot read.
fn probe_number(item: Item) -> u32
    ensures { result ≡ probe_number item }
{
    match item {
        Ok(Value::Number(number)) => number,
        _ => NO_NUMBER,
    }
}
