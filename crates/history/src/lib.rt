// Sheets and their pasts: the promise on every list of calls.
#![tactic(auto)]

ghost use Rattle.history.specs.Promise.{Promise};

// Every past of every sheet of this element type keeps the promise.
pub fn promise_stands<T>() -> u8
    ensures { Promise T }
{
    0
}
