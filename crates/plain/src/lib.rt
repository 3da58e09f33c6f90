// When a true is missed and when not (document 02, request 7): what verdicts say of the completed plot. No code.

#![tactic(auto)]
