// A sheet in outline: its declared names, and its statements in flat form, with names as the source has them.
#![tactic(auto)]

pub mod code;
pub mod declared;

use code::Instruction;
use declared::Declared;

/// A parsed sheet.
#[derive(Drop)]
pub struct Outline<'a> {
    pub declared: Vec<Declared<'a>>,
    pub code: Vec<Instruction<'a>>,
}
