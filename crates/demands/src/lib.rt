// What is demanded of jointrise, as theorems. There is no code here.

#![tactic(auto)]
