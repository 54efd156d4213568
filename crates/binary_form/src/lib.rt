//! The binary form of a grammar: right sides of any length by suffix symbols, unit steps and
//! products, after Lange and Leiss (2009). The grammar itself is never converted.
#![tactic(auto)]

mod build;
mod fault;
mod form;
mod laws;
mod left_sides;
mod nullable;
mod numbering;
mod product;
mod rows;
mod steps;
mod threads;

pub use build::binary;
pub use fault::BinaryFault;
pub use form::Binary;
pub use laws::{
    closure_is_derivation, each_symbol_has_its_number, left_partners_decide_products,
    products_agree,
};
pub use numbering::symbol_count;
pub use threads::binary_forms_cross_threads;
