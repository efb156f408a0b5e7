// The laws of forms over what is lent, for any struct of plain data: in specs/ only.

#![tactic(auto)]
