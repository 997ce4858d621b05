// Sheets whose cells, reaches, bytes and refusals are known.
#![tactic(auto)]

#[cfg(test)]
mod tests;
