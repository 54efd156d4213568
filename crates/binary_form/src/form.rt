//! The binary form of a grammar: its symbols' numbers, their closures, and the product of cells.
ghost use Rattle.std.specs.Prelude.{◌≡◌, ◌<◌, ◌≤◌, ◌↔◌, Some, IsTrue, IfOk};
ghost use Rattle.spec_grammar.specs.Grammars.{IsSymbolOf, HasOwnSymbols, symbol_count};
ghost use Rattle.binary_form.specs.Symbols.{plain, suffix, IsBinarySymbolOf, symbol_number};
ghost use Rattle.binary_form.specs.BinaryForm.{IsNullableNumber, IsClosureOf, IsTokenCell};
ghost use Rattle.binary_form.specs.BinaryForm.{IsProductOf, AddsProductOf, HasProduct};
ghost use Rattle.binary_form.specs.BinaryForm.{AreLeftPartners, AreLeftSymbols};
ghost use Rattle.binary_form.specs.LeftSides.{AreLeftSides};
ghost use Rattle.binary_form.specs.Forms.{AreBinaryParts};
ghost use Rattle.spec_text.specs.declared.limits.TheConstants.{MAX_SYMBOLS};

use crate::left_sides::linked_from;
use crate::product::{is_met, product_of};
use cell_sets::Cell;
use number_graph::Links;
use numbered_grammar::{Grammar, Symbol};
use sqlite_items::Items;
use std::alloc::{AllocError, Global};
use std::marker::Model;
use std::snapshot::Snapshot;

/// The binary form of a grammar, over one type of cell. It keeps numbers alone.
#[derive(Drop)]
pub struct Binary<C: Cell> {
    grammar: Snapshot<Grammar>,
    category_count: u16,
    kind_count: u16,
    first_suffixes: Items<u16>,
    nullable: Vec<bool>,
    closures: Vec<C>,
    longer_suffixes: Links,
    partner_links: Links,
    left_symbols: C,
    none: C,
}

impl<C: Cell> Model for Binary<C> {
    ghost use Rattle.std.specs.Prelude.{◌≡◌, []};
    ghost use Rattle.spec_grammar.specs.Grammars.{Grammar};
    ghost use Rattle.std.specs.Coded.{codes};
    ghost use Rattle.spec_lexing.specs.contracts.expression.Expr as expr;

    ghost Value = { Grammar };

    ghost coded = { Prim.hlevel (codes, expr.the_row.coded) };

    ghost use Rattle.binary_form.specs.Forms.{AreBinaryParts, AreCounts};
    ghost use Rattle.binary_form.specs.LeftSides.{AreLeftSides};

    ghost view = { λ b. b.grammar.value };

    ghost invariant = { λ b.
        AreBinaryParts C.symbols C.ROOM b.grammar.value
        b.first_suffixes b.nullable.items b.closures.items b.longer_suffixes
        × AreCounts b.grammar.value b.category_count b.kind_count
        × (C.symbols b.none ≡ [])
        × AreLeftSides C.symbols b.grammar.value b.partner_links b.left_symbols };
}

impl<C: Cell> Binary<C> {
    /// The binary form of the grammar, of its parts.
    pub(crate) fn of(
        grammar: &Grammar,
        first_suffixes: Items<u16>,
        nullable: Vec<bool>,
        closures: Vec<C>,
        longer_suffixes: Links,
        partner_links: Links,
        left_symbols: C,
    ) -> Binary<C>
        requires parts { AreBinaryParts C.symbols C.ROOM grammar.now
            first_suffixes nullable.items closures.items longer_suffixes }
        requires lefts { AreLeftSides C.symbols grammar.now partner_links left_symbols }
        ensures { result ≡ grammar.now }
    {
        Binary {
            grammar: Snapshot::of(grammar),
            category_count: grammar.category_count(),
            kind_count: grammar.kind_count(),
            first_suffixes,
            nullable,
            closures,
            longer_suffixes,
            partner_links,
            left_symbols,
            none: C::empty(),
        }
    }

    /// How many symbols there are: their numbers are those below. The rules of the grammar have its
    /// own symbols. It takes no memory.
    pub fn symbol_count(&self) -> u32
        ensures own_symbols { HasOwnSymbols self.now }
        ensures count { result ≡ symbol_count self.now }
        ensures few { result ≤ MAX_SYMBOLS }
        ensures room { result ≤ C.ROOM }
    {
        self.nullable.len() as u32
    }

    /// The number of a category or a kind. It takes no memory.
    pub fn symbol_of(&self, symbol: Symbol) -> u16
        requires { IsSymbolOf self.now symbol }
        ensures number { result ≡ symbol_number self.now (plain symbol) }
        ensures below { result < symbol_count self.now }
    {
        match symbol {
            Symbol::Category(c) => c,
            Symbol::Kind(k) => self.category_count + k,
        }
    }

    /// The number of the suffix of rule r from item p on, rules and items counted from 0. It takes
    /// no memory.
    pub fn suffix_of(&self, r: u16, p: u16) -> u16
        requires { IsBinarySymbolOf self.now (suffix r p) }
        ensures number { result ≡ symbol_number self.now (suffix r p) }
        ensures below { result < symbol_count self.now }
    {
        self.first_suffixes.as_slice()[r as usize] + p
    }

    /// Whether the symbol of this number derives the empty span. It takes no memory.
    pub fn nullable(&self, symbol: u16) -> bool
        requires { symbol < symbol_count self.now }
        ensures { IsTrue result ↔ IsNullableNumber self.now symbol }
    {
        self.nullable[symbol as usize]
    }

    /// What the symbol of this number reaches by unit steps, itself included. It takes no memory.
    pub fn up(&self, symbol: u16) -> &C
        requires { symbol < symbol_count self.now }
        ensures { IsClosureOf self.now symbol (C.symbols result.now) }
    {
        &self.closures[symbol as usize]
    }

    /// What a token of this kind is: the closure of its kind. It is empty for a stray token, and
    /// for a number that is no kind's. It takes no memory.
    pub fn token_cell(&self, kind: Option<u16>) -> &C
        ensures { IsTokenCell self.now kind (C.symbols result.now) }
    {
        match kind {
            Some(k) => self.kind_cell(k),
            None => &self.none,
        }
    }

    fn kind_cell(&self, k: u16) -> &C
        ensures { IsTokenCell self.now (Some k) (C.symbols result.now) }
    {
        if k < self.kind_count {
            &self.closures[(self.category_count + k) as usize]
        } else {
            &self.none
        }
    }

    /// The symbols of a span whose left part has the symbols of one cell and whose right part those
    /// of the other: the closure of each suffix whose first item is in the left cell and whose
    /// other items, as a suffix, are in the right one (Valiant 1975; Lange and Leiss 2009). It
    /// looks at the symbols of the left cell and at the places where they are items, and makes a
    /// union for each suffix that it finds. An error is want of memory.
    pub fn product(&self, alloc: Global, left: &C, right: &C) -> Result<C, AllocError>
        ensures { IfOk result (λ cell.
            IsProductOf self.now (C.symbols left.now) (C.symbols right.now) (C.symbols cell)) }
    {
        self.add_product(alloc, C::empty(), left, right)
    }

    /// The cell with the product of two others. It looks where `product` looks, and makes a union
    /// for each suffix whose closure the cell does not have yet. An error is want of memory.
    pub fn add_product(&self, alloc: Global, cell: C, left: &C, right: &C) -> Result<C, AllocError>
        ensures { IfOk result (λ new.
            AddsProductOf self.now (C.symbols left.now) (C.symbols right.now)
            (C.symbols cell) (C.symbols new)) }
    {
        product_of(
            alloc,
            self.closures.as_slice(),
            &self.longer_suffixes,
            left,
            right,
            cell,
        )
    }

    /// Whether the product of the two cells has a symbol. It takes no memory, and stops at the
    /// first suffix that it finds.
    pub fn meets(&self, left: &C, right: &C) -> bool
        ensures { IsTrue result ↔ HasProduct self.now (C.symbols left.now) (C.symbols right.now) }
    {
        is_met(&self.longer_suffixes, left, right)
    }

    /// The symbols that are left of one of the cell in a rule of the binary form: the items whose
    /// suffix behind them is in the cell. A product whose left cell has none of them is empty, and
    /// it depends on no other symbol of its left cell. It looks at each symbol of the cell once, and
    /// makes a new cell. An error is want of memory.
    pub fn left_partners(&self, alloc: Global, right: &C) -> Result<C, AllocError>
        ensures { IfOk result (λ partners.
            AreLeftPartners self.now (C.symbols right.now) (C.symbols partners)) }
    {
        let partners: C = linked_from(alloc, &self.partner_links, right)?;
        Ok(partners)
    }

    /// The symbols that are on the left in some rule of the binary form: the items that have an
    /// item behind them. A product whose left cell has none of them is empty. They were found when
    /// the form was made, and it takes no memory.
    pub fn left_symbols(&self) -> &C
        ensures { AreLeftSymbols self.now (C.symbols result.now) }
    {
        &self.left_symbols
    }
}
