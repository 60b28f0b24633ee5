//! Tests of the lexer of the whole language: the tokens of texts, worked out by hand.
#![tactic(auto)]

#[cfg(test)]
mod comments;
#[cfg(test)]
mod kinds;
#[cfg(test)]
mod limits;
#[cfg(test)]
mod slashes;
#[cfg(test)]
mod texts;
#[cfg(test)]
mod written;
