// When a question is well formed and which fault it has first, in document 01's words; the check of `query` returns
// exactly that. No code.

#![tactic(auto)]
