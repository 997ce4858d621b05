// Logs whose judgement and refusals are known.
#![tactic(auto)]

#[cfg(test)]
mod tests;
