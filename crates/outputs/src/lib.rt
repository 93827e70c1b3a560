// No code: what the programs write is defined here, so that the programs and theorems about more than one of them can name it.

#![tactic(auto)]
