//! Reading the items of a right side.
ghost use Rattle.std.specs.Prelude.{◌<◌, length, OnOk};
ghost use Rattle.lbnf_readers.specs.FileReading.{item_at, side_at};
ghost use Rattle.lbnf_text.specs.Parsing.{Gives, AddsRead, category_item_at};

use crate::parser::{Parser, Stop, text_value};
use crate::texts::add_words;
use spec_lbnf::RawItem;
use sqlite_items::Items;
use std::alloc::Global;

impl<'a> Parser<'a> {
    /// Reads a category, and adds it to the items.
    #[tactic(auto, unfolding(lbnf_readers::specs::FileReading::next_on))]
    fn category_item(&mut self, alloc: Global, items: &mut Items<RawItem>) -> Result<(), Stop>
        ensures read { AddsRead (category_item_at self.old) items.old items.new result self.new }
        ensures shorter { OnOk result (length self.new < length self.old) }
    {
        let cat = self.category(alloc)?;
        items.push(RawItem::Cat(cat))?;
        Ok(())
    }

    /// Reads one category or string, and adds the items that it gives.
    #[tactic(auto, unfolding(lbnf_readers::specs::FileReading::item_at))]
    fn item(&mut self, alloc: Global, items: &mut Items<RawItem>) -> Result<(), Stop>
        ensures read { AddsRead (item_at self.old) items.old items.new result self.new }
        ensures shorter { OnOk result (length self.new < length self.old) }
    {
        let (first, behind) = self.split()?;
        match text_value(&first.token) {
            Some(text) => {
                add_words(alloc, items, text)?;
                self.go_to(behind);
                Ok(())
            }
            None => self.category_item(alloc, items),
        }
    }

    /// Reads the items of all tokens that are left.
    pub fn side(&mut self, alloc: Global) -> Result<Items<RawItem>, Stop>
        ensures { Gives (side_at self.old) result self.new }
    {
        let mut items = Items::new(alloc);
        'items: while !self.is_at_end() {
            self.item(alloc, &mut items)?;
        }
        Ok(items)
    }
}
