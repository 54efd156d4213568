//! Small cases of what expressions match, and of the tokens of texts. Each is the contract of a
//! function with an empty body, and nothing stands on them.
#![tactic(auto)]

ghost use Rattle.spec_lexing_cases.specs.MatchingExamples.{MatchesByForms, MatchesPredefined};
ghost use Rattle.spec_lexing_cases.specs.TokenExamples.{HasTokensOfWords, HasTokensAmongComments};
ghost use Rattle.spec_lexing_cases.specs.TokenExamples.{HasTokensOfIdentifiers};

/// What each form of expression matches, on texts that it matches and texts that it does not.
pub fn forms_of_expressions()
    ensures { MatchesByForms }
{}

/// What each predefined kind matches, on three texts that it matches and three that it does not.
pub fn predefined_kinds()
    ensures { MatchesPredefined }
{}

/// The tokens of small texts, where all kinds are words.
pub fn tokens_of_words()
    ensures { HasTokensOfWords }
{}

/// The tokens of small texts with comments.
pub fn tokens_among_comments()
    ensures { HasTokensAmongComments }
{}

/// The tokens of a small text, where a word stands before a token of identifiers.
pub fn tokens_of_identifiers()
    ensures { HasTokensOfIdentifiers }
{}
