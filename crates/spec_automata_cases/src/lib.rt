//! Small cases of positions, of comments and of states. Each is the contract of a function with an
//! empty body, and nothing stands on them.
#![tactic(auto)]

ghost use Rattle.spec_automata_cases.specs.PositionExamples.{HasPositionsOfWords, HasPositionCounts};
ghost use Rattle.spec_automata_cases.specs.CommentExamples.{ReadsClosings};
ghost use Rattle.spec_automata_cases.specs.StateExamples.{CountsStates};

/// The positions of small texts: of words, of alternatives that begin alike, of repetitions.
pub fn positions_of_words()
    ensures { HasPositionsOfWords }
{}

/// How many positions small expressions have.
pub fn counts_of_positions()
    ensures { HasPositionCounts }
{}

/// How much of a closing text has been read in small comments.
pub fn closings_of_comments()
    ensures { ReadsClosings }
{}

/// How many sets of positions a word has, and how far a lexer of it reads.
pub fn states_of_a_word()
    ensures { CountsStates }
{}
