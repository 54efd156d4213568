//! Laws of the definitions that the contracts cite, each on a function that does nothing.
ghost use Rattle.cell_sets.specs.Cells.{RisingListsAreSets};
ghost use Rattle.cell_sets.specs.Grids.{EntriesAreValues};

/// Two lists in rising order with the same members are the same list. So cells with the same
/// symbols are seen as equal.
pub fn rising_lists_are_sets()
    ensures { RisingListsAreSets }
{}

/// An entry of a grid made from a function is the function's value. So a table of cells, however it
/// is kept, is seen as the grid of a function that reads it.
pub fn entries_are_values()
    ensures { EntriesAreValues }
{}
