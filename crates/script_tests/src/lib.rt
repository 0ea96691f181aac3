// Tests of scripts: lines that cannot be read, or come too early.
#![tactic(auto)]

#[cfg(test)]
mod tests;
