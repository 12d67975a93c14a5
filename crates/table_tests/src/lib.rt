#![tactic(auto)]

// Tables of cases: the keys against outside vectors, and both rolls at their smallest and largest sizes.
#[cfg(test)]
mod keys_table;
#[cfg(test)]
mod rolls_table;
