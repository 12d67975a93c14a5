#![tactic(auto)]

// Tables of cases: times, hosts, bit vectors and bit sets at their limits, and the course of a record.
#[cfg(test)]
mod bit_sets_table;
#[cfg(test)]
mod record_table;
#[cfg(test)]
mod values_table;
