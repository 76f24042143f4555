// The rules (docs/RULES.md) as definitions: specs/ is what a reader must believe, proofs/ what follows from it. There is no code.

#![tactic(auto)]
