// Laws of the candidate search that hold of every answer. There is no code here: specs/ says what they are, proofs/ that they hold.
#![tactic(auto)]
