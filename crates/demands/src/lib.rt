// What is demanded of the check: runs of calls, the three demands, the cases that the specification marks, the useless checks. Claims alone.
#![tactic(auto)]
