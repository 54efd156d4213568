//! What is known of the texts of a grammar: each is a name, so it is UTF-8.
ghost use Rattle.std.specs.Prelude.{All, IsUtf8};
ghost use Rattle.text_store.specs.TextStore.{AreUtf8};
ghost use Rattle.chart_service.specs.KnownTexts.{IsUtf8Word};

use spec_lexing::KindDef;
use spec_text::Name;

/// The name is UTF-8, as all names are.
fn know_name(name: &Name)
    ensures { IsUtf8 name.now }
{
    let _bytes = name.as_slice();
}

/// The names are UTF-8.
pub(crate) fn know_names(names: &[Name])
    ensures { All IsUtf8 names.now }
{
    for name in names {
        know_name(name);
    }
}

/// Both names are UTF-8.
fn know_pair(pair: &(Name, Name))
    ensures { AreUtf8 pair.now }
{
    know_name(&pair.0);
    know_name(&pair.1);
}

/// The names of the pairs are UTF-8.
pub(crate) fn know_pairs(pairs: &[(Name, Name)])
    ensures { All AreUtf8 pairs.now }
{
    for pair in pairs {
        know_pair(pair);
    }
}

/// The kind, if it is a word, is UTF-8.
fn know_word(kind: &KindDef)
    ensures { IsUtf8Word kind.now }
{
    if let KindDef::Word(word) = kind {
        know_name(word);
    }
}

/// The words among the kinds are UTF-8.
pub(crate) fn know_words(kinds: &[KindDef])
    ensures { All IsUtf8Word kinds.now }
{
    for kind in kinds {
        know_word(kind);
    }
}
