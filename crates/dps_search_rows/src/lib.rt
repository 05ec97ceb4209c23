//! A table of small scenes, each with what the search finds and how many moves it takes. There is nothing to call here.
#![tactic(auto)]

#[cfg(test)]
mod tests;
