// What the static libraries hand out of an answer: definitions alone, in specs.
#![tactic(auto)]
