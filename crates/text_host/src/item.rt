// From the bytes of a text to its items.
ghost use Rattle.std.specs.Prelude.{◌≡◌, ◌≤◌, ℕ, [], ◌∷◌, MatchOption, IsTrue, not, position};
ghost use Rattle.std.specs.Char.{is_ascii_digit};
ghost use Rattle.std.specs.List.{list_all};
ghost use Rattle.text_host.specs.Items.{ahead, blank, is_digits, item_of, items, number_of, runs};
ghost use Rattle.hosts.specs.Meaning.{most_read};
ghost use Rattle.hosts.specs.declared.exchange.Value.TheVariants.{Number};

use hosts::exchange::{Item, Unreadable, Value};
use std::str;

const MOST_DIGITS: usize = 10;

const MOST_READ: u32 = 4_294_967_294;

fn is_blank(byte: u8) -> bool
    ensures { result ≡ blank byte }
{
    matches!(byte, b' ' | b'\n')
}

/// The first item of a text, if it has one, and the bytes behind it.
pub(crate) fn next_item(text: &[u8]) -> (Option<Item>, &[u8])
    ensures item { ahead result.0 (items result.1.now) ≡ items text.now }
    ensures readable { (n : ℕ) → result.0 ≡ Some (Ok (Number n)) → n ≤ most_read }
{
    match next_run(text) {
        Some((run, rest)) => (Some(read_item(run)), rest),
        None => (None, text),
    }
}

/// The first run of a text, if it has one, and the bytes behind it.
fn next_run(text: &[u8]) -> Option<(&[u8], &[u8])>
    ensures { MatchOption result (runs text.now ≡ []) (λ p. runs text.now ≡ p.0.now ∷ runs p.1.now) }
{
    let from_run = &text[run_start(text)?..];
    let end = first_blank(from_run).unwrap_or(from_run.len());
    Some(from_run.split_at(end))
}

/// Where the first run begins, if there is one.
fn run_start(text: &[u8]) -> Option<usize>
    ensures { result ≡ position (λ b. not (blank b)) text.now }
{
    text.iter().position(|byte| !is_blank(*byte))
}

fn first_blank(text: &[u8]) -> Option<usize>
    ensures { result ≡ position blank text.now }
{
    text.iter().position(|byte| is_blank(*byte))
}

/// The item that a run is.
fn read_item(run: &[u8]) -> Item
    ensures { result ≡ item_of run.now }
{
    if run == "true".as_bytes() {
        Ok(Value::Truth(true))
    } else if run == "false".as_bytes() {
        Ok(Value::Truth(false))
    } else {
        read_number(run)
    }
}

#[tactic(auto, using(crate::proofs::Digits::all_digits, crate::proofs::Digits::utf8_digits))]
fn read_number(run: &[u8]) -> Item
    ensures { result ≡ number_of run.now }
{
    if is_digits(run) {
        // Digits are text.
        digits_item(str::from_utf8(run).unwrap())
    } else {
        Err(Unreadable)
    }
}

fn digits_item(digits: &str) -> Item
    requires { IsTrue (is_digits digits.now) }
    ensures { result ≡ number_of digits.now }
{
    match digits.parse() {
        Ok(number) if number <= MOST_READ => Ok(Value::Number(number)),
        _ => Err(Unreadable),
    }
}

fn is_digits(run: &[u8]) -> bool
    ensures { result ≡ is_digits run.now }
{
    !run.is_empty() && run.len() <= MOST_DIGITS && all_digits(run)
}

fn all_digits(run: &[u8]) -> bool
    ensures { result ≡ list_all is_ascii_digit run.now }
{
    run.iter().all(|byte| byte.is_ascii_digit())
}
