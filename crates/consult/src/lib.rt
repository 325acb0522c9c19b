//! Consulting a service rule: the rows of each resource from a plan's items and their windows, and the rule's answer for every item.
#![tactic(auto)]

pub mod chains;
pub mod network;
pub mod rounds;
pub mod rows;
pub mod window;
pub mod work;
