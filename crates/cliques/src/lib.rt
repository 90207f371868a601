// What a clique, a group and the list of the groups are, and the theory of them. There is no code here.

#![tactic(auto)]
