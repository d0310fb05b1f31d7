// The theorems of document 01's demands, over the definitions and on bytes; there is no code.

#![tactic(auto)]
