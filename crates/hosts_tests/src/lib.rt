// Examples of the hosts at their edges. They stand apart, since a crate with tests is proved twice.
#![tactic(auto)]

#[cfg(test)]
mod probe;
#[cfg(test)]
mod report;
#[cfg(test)]
mod text;
