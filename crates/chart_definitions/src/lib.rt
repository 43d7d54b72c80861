// What a chart is, the order of its records, and the file that is written from it: definitions, no code.
#![tactic(auto)]
