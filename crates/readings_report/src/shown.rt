// An item as the report has it.
ghost use Rattle.std.specs.Prelude.{Some};
ghost use Rattle.readings_report.specs.Report.{item_text};

use hosts::exchange::{Item, Value};
use std::fmt;

/// An item as it was understood.
#[derive(Clone, Copy)]
pub(crate) struct Shown(pub(crate) Item);

impl fmt::Display for Shown {
    ghost output = { λ s. Some (item_text s.0) };

    fn fmt<W: fmt::Write>(&self, f: &mut fmt::Formatter<W>) -> fmt::Result {
        match self.0 {
            Ok(Value::Number(number)) => write!(f, "number {number}"),
            Ok(Value::Truth(true)) => f.write_str("truth true"),
            Ok(Value::Truth(false)) => f.write_str("truth false"),
            Err(_) => f.write_str("unreadable"),
        }
    }
}
