// Summaries of lists whose values are counted out by hand.
#![tactic(auto)]

#[cfg(test)]
mod tests;
