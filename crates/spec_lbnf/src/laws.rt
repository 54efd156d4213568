//! Laws of the definitions: each function here does nothing, and its clause is a theorem.
ghost use Rattle.spec_lbnf.specs.Laws.{OwnSymbols, OwnEntry, FitOrUnfit, OneUnfitness};
ghost use Rattle.spec_lbnf.specs.Laws.{NumbersNameBack, NoMemoryFault, NoMemoryUnfitness};
ghost use Rattle.spec_lbnf.specs.Laws.{AcyclicOrCyclic, OneCyclic, DistinctNames};
ghost use Rattle.spec_lbnf.specs.Laws.{TwoBytesForEach, DefsWithinLimits, OneSymbolEach};
ghost use Rattle.spec_lbnf.specs.Laws.{ProperDefs, SoundKinds};

/// Each rule of the grammar that definitions stand for is of a category of that grammar, and its
/// items are categories and kinds of it, whether or not each category has a rule.
pub fn own_symbols()
    ensures { OwnSymbols }
{}

/// No definitions pass all checks and fail one, and the first that they fail gives one fault.
pub fn fit_or_unfit()
    ensures either { FitOrUnfit }
    ensures one { OneUnfitness }
{}

/// Want of memory is no first fault of a file, and definitions are not unfit for it.
pub fn never_memory()
    ensures file { NoMemoryFault }
    ensures definitions { NoMemoryUnfitness }
{}

/// Where all categories are known, the entry is a symbol of the grammar.
pub fn own_entry()
    ensures { OwnEntry }
{}

/// Where no definition repeats a name, a name is that of one symbol at most, a category or a kind of
/// token.
pub fn one_symbol_each()
    ensures { OneSymbolEach }
{}

/// Where words are UTF-8 and the expressions of token definitions are sound, the kinds of the
/// grammar are sound.
pub fn sound_kinds()
    ensures { SoundKinds }
{}

/// No grammar both is without a cycle and has a first cyclic category, and at most one text is that
/// of the first.
pub fn acyclic_or_cyclic()
    ensures either { AcyclicOrCyclic }
    ensures one { OneCyclic }
{}

/// The number of a listed name is a place where that name stands.
pub fn numbers_name_back()
    ensures { NumbersNameBack }
{}

/// No name stands at two places of a list without repetitions, and what stands there are the names
/// of the list.
pub fn distinct_names()
    ensures { DistinctNames }
{}

/// A file has at least two bytes for each definition, item, entry category and word of a terminator
/// or separator that it spells.
pub fn two_bytes_for_each()
    ensures { TwoBytesForEach }
{}

/// What a file spells has at most 32,768 definitions, items, entry categories and words of
/// terminators and separators together, no category has more than 63 brackets on a side, and no
/// word of an item is empty.
pub fn defs_within_limits()
    ensures { DefsWithinLimits }
{}

/// What a file spells has sound token expressions, each difference one of a class and a class of
/// ASCII characters, and no comment with an empty text.
pub fn proper_defs()
    ensures { ProperDefs }
{}
