// A table of records served by rules, whatever the records and the rules are. There is no code here.

#![tactic(auto)]
