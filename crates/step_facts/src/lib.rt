//! Facts: which pattern came of a step, for as many steps as there is room for.
//!
//! A step is found again whatever its rule is called and wherever its pattern lies, as long as
//! rule, pattern, cells and generations are equal. The facts that were used last stay longest.
//!
//! A look-up goes over the facts by how many cells are live; generations, cells, rules and
//! patterns are compared, each only where all before agree. A fact shares its rule and its patterns
//! with whoever else holds them, and has the cells for itself.
#![tactic(auto)]

mod facts;
mod kept;

pub use facts::Facts;
