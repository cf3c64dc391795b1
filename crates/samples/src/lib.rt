// More samples, beside those of the model: each row pins a part of the state, an order of refusals or a place. No code.

#![tactic(auto)]
