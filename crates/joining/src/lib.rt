#![tactic(auto)]

// What tracking a set does to the records: lemmas only, no code.
