//! The service rules: the climb to a smallest solution, a processor, a bus, and the layers over rules.
#![tactic(auto)]

pub mod bus;
pub mod climb;
pub mod demand;
pub mod either;
pub mod machine;
pub mod pair;
pub mod processor;
pub mod rows;
pub mod switch;
pub mod ticks;
