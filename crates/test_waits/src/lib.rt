//! Trials of a range lock on which callers queue and sleep. Cases on one thread say what each call answers and leaves;
//! threads count who is inside the range, and how many were woken. What is expected was reckoned by hand.
#![tactic(auto)]

#[cfg(test)]
mod opened;
#[cfg(test)]
mod plays;
#[cfg(test)]
mod stress;
#[cfg(test)]
mod stress_tests;
#[cfg(test)]
mod tests;
