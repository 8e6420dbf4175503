// No code and no laws: here stood the walks by hand that functions over lent rows needed, each a law over types and contracts. Today's check
// proves such functions by itself.
#![tactic(auto)]
