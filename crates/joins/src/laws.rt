//! Laws of joins and of closed charts. Each body is empty: the contract is the law.
ghost use Rattle.joins.specs.Laws.{NodesStandForTheirKinds, OneSolution};
ghost use Rattle.joins.specs.Laws.{PartsStandForTheirKinds, SomeSolution};

/// A join has one solution: any two matrices that solve it have the same symbols in each entry.
pub fn one_solution()
    ensures { OneSolution }
{}

/// A join has a solution, where each two cells have a product.
pub fn some_solution()
    ensures { SomeSolution }
{}

/// Where two charts stand for their kinds under a grammar and a corner solves the join of the two
/// with one token between, the node of these stands for the kinds of the left one, the token's and
/// those of the right one: each entry has just the symbols that derive its span (Valiant 1975).
pub fn nodes_stand_for_their_kinds()
    ensures { NodesStandForTheirKinds }
{}

/// Where a node stands for its kinds under a grammar, its parts stand for theirs.
pub fn parts_stand_for_their_kinds()
    ensures { PartsStandForTheirKinds }
{}
