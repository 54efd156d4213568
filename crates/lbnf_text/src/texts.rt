//! The words of strings.
ghost use Rattle.std.specs.Prelude.{◌≡◌, ◌++◌, not, IfOk, OnOk};
ghost use Rattle.spec_lbnf.specs.Words.{is_empty};
ghost use Rattle.spec_lbnf.specs.Expansion.{word_items};
ghost use Rattle.spec_lbnf.specs.declared.definition.RawItem.TheVariants.{Word};

use spec_lbnf::RawItem;
use spec_text::Name;
use sqlite_items::Items;
use std::alloc::{AllocError, Global};

fn has_bytes(part: &str) -> bool
    ensures { result ≡ not (is_empty part.now) }
{
    !part.is_empty()
}

/// A word, as an item. Its bytes are copied.
pub fn word_item(alloc: Global, word: &str) -> Result<RawItem, AllocError>
    ensures { IfOk result (λ item. item ≡ Word word.now) }
{
    let bytes = Vec::from_slice(alloc, word.as_bytes())?;
    Ok(RawItem::Word(Name::of(bytes)))
}

/// Adds the words of a string to the items. Their bytes are copied.
pub(crate) fn add_words(
    alloc: Global,
    items: &mut Items<RawItem>,
    text: &Name,
) -> Result<(), AllocError>
    ensures { OnOk result (items.new ≡ items.old ++ word_items text.now) }
{
    for part in text.as_str().split(' ').filter(|part| has_bytes(*part)) {
        items.push(word_item(alloc, part)?)?;
    }
    Ok(())
}

/// The words of a string, as items: it is cut at its spaces, and empty words vanish, as in a right
/// side of the BNF Converter's notation. Their bytes are copied.
pub fn words(alloc: Global, text: &Name) -> Result<Items<RawItem>, AllocError>
    ensures { IfOk result (λ items. items ≡ word_items text.now) }
{
    let mut items = Items::new(alloc);
    add_words(alloc, &mut items, text)?;
    Ok(items)
}
