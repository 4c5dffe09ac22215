// The worked examples, as one theorem about the definitions.
#![tactic(auto)]

ghost use Rattle.examples.specs.Worked.{Worked};

pub fn worked_examples() -> u8
    ensures { Worked }
{
    0
}
