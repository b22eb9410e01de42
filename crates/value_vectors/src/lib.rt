//! Tests of what no file comes to, through the public calls that an evaluation is made of.
#![tactic(auto)]

#[cfg(test)]
mod costs;
#[cfg(test)]
mod meters;
#[cfg(test)]
mod outcomes;
#[cfg(test)]
mod reviews;
#[cfg(test)]
mod statements;
