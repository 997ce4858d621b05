// Logs whose lines and endings are known, fed to the end.
#![tactic(auto)]

#[cfg(test)]
mod tests;
