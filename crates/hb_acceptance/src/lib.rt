//! Acceptance tests: calls of the top call over files and a sink in memory, each by the name of what it shows.
#![tactic(auto)]

#[cfg(test)]
mod instructions;
#[cfg(test)]
mod rows;
#[cfg(test)]
mod seen;
#[cfg(test)]
mod sources;
