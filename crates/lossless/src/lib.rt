// Tables that lose nothing (02, request 10): two theorems over what run leaves. There is no code: specs/ states them, proofs/ proves them.
#![tactic(auto)]
