//! Forms and charts of small grammars, with numbers, closures, products and entries by hand.
mod charts;
mod forms;
mod samples;
