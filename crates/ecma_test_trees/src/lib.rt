//! Tests of the tree: nodes are printed, compared, taken out of their handles and let go, and how large they are. What each kind of node that a text makes
//! looks like in print is shown by rows.
#![tactic(auto)]

#[cfg(test)]
mod chains;
#[cfg(test)]
mod sizes;
#[cfg(test)]
mod wholes;
