//! Nodes of the partition tree: what they mean, how they are split, what is asked in them, and the rules by which they are
//! expanded.
#![tactic(auto)]

mod asking;
mod beginning;
mod configs;
mod consistency;
mod copying;
mod examples;
mod labels;
mod laws;
mod node;
mod numbering;
mod parts;
mod replaced;
mod scenes;
mod splits;
mod valuation;
mod words;

pub use asking::{Answer, Found, Query, ask, ask_whole, find_counted};
pub use beginning::root;
pub use consistency::consistent;
pub use examples::{
    attack_is_found, budget_is_spent, entry_is_found, input_is_divided, secret_is_opened,
};
pub use laws::{
    composition_false, equal_tells, eval_is_known, eval_tells, expansions_take_one_count,
    false_holds_never, meetings_are_those, open_is_not_plain, pruned_cases_answer_alike,
    success_tells, test_tells, thinned_answer_alike, thinned_reply_alike, tree_false, tree_true,
    true_holds,
};
pub use node::{Node, SymConfig};
pub use numbering::variables;
pub use parts::partition;
pub use scenes::scene;
pub use splits::split;
pub use words::ground_trace;
