//! Laws of the meaning of the notation: in a checked program nothing of a wrong kind and no absent place is
//! ever met, and what the definitions say is what the plain words say. There is no code here.
#![tactic(auto)]

pub mod alternatives;
pub mod budgets;
pub mod calls;
pub mod depths;
pub mod expressions;
pub mod forms;
pub mod kinds;
pub mod rejections;
pub mod statements;
