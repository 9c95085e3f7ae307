// The rules of the checker. They are definitions, in specs/; there is no code here.
#![tactic(auto)]
