// Scales at the edges of what they may be, and at what they say.
#![tactic(auto)]

#[cfg(test)]
mod tests;
