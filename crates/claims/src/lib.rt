// Claims as wide as the sentences of document 01, over the contracts. There is no code here: the claims stand in specs/, what is proved of them in proofs/.
#![tactic(auto)]
