// Values as numbers of 32 bits.
ghost use Rattle.std.specs.Prelude.{◌≡◌};
ghost use Rattle.probe_host.specs.Codes.{code_answer, item_of};

use hosts::exchange::{Cause, Item, Unreadable, Value};

const MOST_READ: u32 = 4_294_967_294;

const MOST_WRITTEN: u32 = 2_147_483_647;

/// What a number in the input stands for.
pub(crate) fn item(number: u32) -> Item
    ensures { result ≡ item_of number }
{
    if number <= MOST_READ {
        Ok(Value::Number(number))
    } else {
        Err(Unreadable)
    }
}

/// The number that stands for a value in the output, or the cause why there is none.
pub(crate) fn code(value: Value) -> Result<u32, Cause>
    ensures { result ≡ code_answer value }
{
    match value {
        Value::Truth(truth) => Ok(u32::from(truth)),
        Value::Number(number) if number <= MOST_WRITTEN => Ok(number + 2),
        Value::Number(_) => Err(Cause::Large),
    }
}
