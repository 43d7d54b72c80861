// What forms, blocks, rules and findings are: definitions and claims, no code.
#![tactic(auto)]
