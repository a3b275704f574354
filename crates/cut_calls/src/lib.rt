// Power lost during a record (02, Ticket 6), for lists of calls over what the lent memory means. There is no code here: the claims stand in specs/,
// what is proved of them in proofs/.
#![tactic(auto)]
