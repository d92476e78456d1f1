// How a value is written as a line.
ghost use Rattle.std.specs.Prelude.{◌≡◌, ◌+◌, ◌++◌, ◌≤◌, Ok, length, take, drop, codes};
ghost use Rattle.hosts.specs.Meaning.{judged};
ghost use Rattle.text_host.specs.Lines.{line_bytes, line_of};

use hosts::exchange::Value;
use itoa::Buffer;

/// Writes a value at a place as a line, and gives the place behind it.
pub(crate) fn write_line(value: Value, output: &mut [u8], at: usize) -> usize
    requires judged { judged value ≡ Ok tt }
    requires room { at + line_bytes ≤ length output.old }
    ensures end { result ≡ at + length (line_of value) }
    ensures text { take result output.new ≡ take at output.old ++ line_of value }
    ensures behind { drop result output.new ≡ drop result output.old }
{
    match value {
        Value::Truth(true) => write_text("true", output, at),
        Value::Truth(false) => write_text("false", output, at),
        Value::Number(number) => write_text(Buffer::new().format(number), output, at),
    }
}

/// The same of the text of a line.
fn write_text(text: &str, output: &mut [u8], at: usize) -> usize
    requires room { at + length text.now + 1 ≤ length output.old }
    ensures end { result ≡ at + length (text.now ++ codes "\n") }
    ensures text { take result output.new ≡ take at output.old ++ (text.now ++ codes "\n") }
    ensures behind { drop result output.new ≡ drop result output.old }
{
    let end = at + text.len();
    output[at..end].copy_from_slice(text.as_bytes());
    output[end] = b'\n';
    end + 1
}
