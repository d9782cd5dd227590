// Histories and granules that meet settling's assumptions, and that show its bounds to be sharp: proofs/ has them. There is no code.

#![tactic(auto)]
