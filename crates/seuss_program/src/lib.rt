//! Trees and programs of the notation, what they mean, and what is printed of a run.
#![tactic(auto)]

mod initial;
mod order;
mod program;
mod state;
mod tree;

pub use initial::initial_state;
pub use order::{LastLine, Order, Outcomes, Placed};
pub use program::{ActionInfo, BoxInfo, Program};
pub use state::{State, Value, Vars};
pub use tree::{
    Alternative, BoxDecl, Call, Cat, Expr, Form, Fun, Given, Hint, Kind, Name, Node, Op, Param,
    Pre, Proc, Ref, Semi, Statement, Tree, Var,
};
