// What a good standard field is (RULES, Own table, wishes, choice), with its laws. There is no operation here.
#![tactic(auto)]
