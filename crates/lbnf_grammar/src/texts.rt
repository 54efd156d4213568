//! The texts of categories, and copies of labels, categories and items.
ghost use Rattle.std.specs.Prelude.{◌≡◌, ◌++◌, IfOk, OnOk, IsUtf8, string_bytes};
ghost use Rattle.std.specs.Fmt.{decimal};
ghost use Rattle.spec_lbnf.specs.Expansion.{category_text};

use spec_grammar::Label;
use spec_lbnf::{CatName, RawItem};
use spec_text::Name;
use sqlite_items::Items;
use std::alloc::{AllocError, Global};
use std::marker::Model;

/// The text of a category, seen as its bytes. It keeps no more than the name and how many brackets
/// are around it, so that it takes no memory.
#[derive(Drop)]
pub(crate) struct CategoryText<'a> {
    name: &'a str,
    depth: u8,
}

impl<'a> Model for CategoryText<'a> {
    ghost use Rattle.std.specs.Prelude.{List, ℕ, ◌++◌, replicate};

    ghost Value = { List ℕ };

    ghost view = { λ text. replicate text.depth 91 ++ (text.name.now ++ replicate text.depth 93) };
}

impl<'a> CategoryText<'a> {
    /// Writes the text in place of the bytes.
    fn write(&self, bytes: &mut Vec<u8>) -> Result<(), AllocError>
        ensures text { OnOk result (bytes.new.items ≡ self.now) }
        ensures utf8 { OnOk result (IsUtf8 bytes.new.items) }
    {
        let depth = self.depth as usize;
        bytes.clear();
        bytes.resize(depth, b'[')?;
        bytes.extend_from_slice(self.name.as_bytes())?;
        bytes.resize(bytes.len() + depth, b']')?;
        Ok(())
    }

    /// The text. With brackets it is written in the room, whose memory serves text after text, and
    /// without them it is the name as it is.
    pub(crate) fn in_room<'r>(&'r self, room: &'r mut Vec<u8>) -> Result<&'r str, AllocError>
        ensures { IfOk result (λ text. text.now ≡ self.now) }
    {
        if self.depth == 0 {
            return Ok(self.name);
        }
        self.write(room)?;
        match str::from_utf8(room.as_slice()) {
            Ok(text) => Ok(text),
            Err(_) => unreachable!(),
        }
    }

    /// The text as a name, whose bytes are copied.
    pub(crate) fn to_name(&self, alloc: Global) -> Result<Name, AllocError>
        ensures { IfOk result (λ name. name ≡ self.now) }
    {
        let mut bytes = Vec::new(alloc);
        self.write(&mut bytes)?;
        Ok(Name::of(bytes))
    }
}

/// The name as it is, as a category without brackets has it.
pub(crate) fn plain_text(name: &Name) -> CategoryText<'_>
    ensures { result ≡ name.now }
{
    CategoryText {
        name: name.as_str(),
        depth: 0,
    }
}

/// The category's name in its brackets.
pub(crate) fn category_text(cat: &CatName) -> CategoryText<'_>
    ensures { result ≡ category_text cat.now }
{
    CategoryText {
        name: cat.name.as_str(),
        depth: cat.depth,
    }
}

/// The text as a name. Its bytes are moved.
pub(crate) fn name_of(text: String) -> Name
    ensures { result ≡ string_bytes text }
{
    Name::of(text.into_bytes())
}

/// The name, and the number behind it.
pub(crate) fn numbered_name(alloc: Global, name: &Name, number: u32) -> Result<Name, AllocError>
    ensures { IfOk result (λ text. text ≡ name.now ++ decimal number) }
{
    let name = name.as_str();
    let text = format!(in alloc; "{name}{number}")?;
    Ok(name_of(text))
}

pub(crate) fn copy_label(alloc: Global, label: &Label) -> Result<Label, AllocError>
    ensures { IfOk result (λ copy. copy ≡ label.now) }
{
    match label {
        Label::Named(name) => Ok(Label::Named(name.copy(alloc)?)),
        Label::Wild => Ok(Label::Wild),
        Label::Nil => Ok(Label::Nil),
        Label::Cons => Ok(Label::Cons),
        Label::One => Ok(Label::One),
    }
}

pub(crate) fn copy_category(alloc: Global, cat: &CatName) -> Result<CatName, AllocError>
    ensures { IfOk result (λ copy. copy ≡ cat.now) }
{
    let name = cat.name.copy(alloc)?;
    let depth = cat.depth;
    Ok(CatName { name, depth })
}

fn copy_item(alloc: Global, item: &RawItem) -> Result<RawItem, AllocError>
    ensures { IfOk result (λ copy. copy ≡ item.now) }
{
    match item {
        RawItem::Cat(cat) => Ok(RawItem::Cat(copy_category(alloc, cat)?)),
        RawItem::Word(word) => Ok(RawItem::Word(word.copy(alloc)?)),
    }
}

pub(crate) fn copy_items(alloc: Global, items: &[RawItem]) -> Result<Items<RawItem>, AllocError>
    ensures { IfOk result (λ copy. copy ≡ items.now) }
{
    let mut copy = Items::new(alloc);
    for item in items {
        copy.push(copy_item(alloc, item)?)?;
    }
    Ok(copy)
}
