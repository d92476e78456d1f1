// How many items there are of each kind.
ghost use Rattle.std.specs.Prelude.{◌≡◌, Some, count_by};
ghost use Rattle.readings_report.specs.Report.{is_number, is_truth, is_unreadable, tally_text};

use hosts::exchange::{Item, Value};
use std::fmt;

/// How many of a list's items are of each kind.
#[derive(Clone, Copy)]
pub(crate) struct Tally {
    numbers: usize,
    truths: usize,
    unreadable: usize,
}

impl Tally {
    pub(crate) fn of(items: &[Item]) -> Tally
        ensures numbers { result.numbers ≡ count_by is_number items.now }
        ensures truths { result.truths ≡ count_by is_truth items.now }
        ensures unreadable { result.unreadable ≡ count_by is_unreadable items.now }
    {
        Tally {
            numbers: items.iter().filter(|item| is_number(**item)).count(),
            truths: items.iter().filter(|item| is_truth(**item)).count(),
            unreadable: items.iter().filter(|item| item.is_err()).count(),
        }
    }
}

fn is_number(item: Item) -> bool
    ensures { result ≡ is_number item }
{
    matches!(item, Ok(Value::Number(_)))
}

fn is_truth(item: Item) -> bool
    ensures { result ≡ is_truth item }
{
    matches!(item, Ok(Value::Truth(_)))
}

impl fmt::Display for Tally {
    ghost output = { λ t. Some (tally_text t.numbers t.truths t.unreadable) };

    fn fmt<W: fmt::Write>(&self, f: &mut fmt::Formatter<W>) -> fmt::Result {
        let numbers = self.numbers;
        let truths = self.truths;
        let unreadable = self.unreadable;
        write!(
            f,
            "numbers {numbers}\ntruths {truths}\nunreadable {unreadable}"
        )
    }
}
