// No code: what is said here is about the definitions of the crates below, and so about all code that is proved against them.

#![tactic(auto)]
