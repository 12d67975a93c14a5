#![tactic(auto)]

// What holds after any calls on a newly made directory, said by the calls and their answers alone.
