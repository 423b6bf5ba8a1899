// What a finite commutative ring is. There are only definitions here, for the contracts of the crates above.
#![tactic(auto)]
