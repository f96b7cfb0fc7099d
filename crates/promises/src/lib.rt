// No code: specs/ has the three demands as statements on the definitions that the contracts cite, and
// proofs/ has their proofs.
#![tactic(auto)]
