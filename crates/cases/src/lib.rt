// No code: whole data calls and whole listings, computed by the definitions of the crates below and held against what document 01 says of
// them.

#![tactic(auto)]
