// No code: closed instances of the theorems of `promises`, premises met and conclusions computed, from the definitions of the crates below
// alone.

#![tactic(auto)]
