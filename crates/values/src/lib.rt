#![tactic(auto)]

// What the stages of a plan come to: definitions only, in specs/.
