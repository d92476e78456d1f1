// Reads the text of a sheet on standard input, and prints whether it passes.
#![tactic(auto)]

use judge_report::report;
use std::io;
use std::io::Read;

// The programs differ in the report alone. A function for all would have to ask of its report that it may be called, for three calls
// of the library.
fn main(rt: HostRuntime) -> io::Result<()> {
    let mut source = Vec::new(rt.alloc());
    rt.stdin().read_to_end(&mut source)?;
    let text = report(rt.alloc(), source.as_slice())?;
    rt.print(text.as_str())
}
