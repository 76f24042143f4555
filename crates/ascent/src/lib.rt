// Response bounds on the way up to the least settled ones: what a raise keeps, and what coming to rest gives. Definitions in specs/, laws in proofs/.

#![tactic(auto)]
