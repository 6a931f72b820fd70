//! Blocks and their items (C11 6.8.2, 6.8.1).
//! A block is a scope; labels stand in that of a `switch` alone.

ghost use Rattle.std.specs.Prelude.{◌≡◌, OnOk};
ghost use Rattle.c_grammar.specs.Input.{enclosed};
ghost use Rattle.c_expr_parser.specs.Reads.{Keeps};
ghost use Rattle.c_unit_grammar.specs.Read.Statements as spec;
ghost use Rattle.c_unit_grammar.specs.Read.Statements.{within};
ghost use Rattle.c_unit_parser.specs.Reads.{Reads};
ghost use Rattle.c_unit_parser.specs.Nests.{Nests};
ghost use Rattle.c_unit_parser.specs.Parts as parts;

use crate::cursor::Cursor;
use crate::grammar::Grammar;
use crate::memory::pushed;
use crate::wanted::{Found, Wanted};
use crate::words::ItemKind;
use c_expr_parser::{ParseFault, or_drop};
use c_tree::{Block, BlockItem, Keyword, Punct, Stmt};
use std::alloc::Global;
use word_ops::Items;

// A token comes next that does not close a block.
fn goes_item(input: &Cursor<'_>) -> bool
    ensures { result ≡ spec.goes_item input.now.state }
{
    input.kind().is_some() && !input.sees(Punct::RightBrace)
}

impl<F: Fn(Global, &mut Cursor<'_>, u32, Wanted) -> Result<Found, ParseFault>> Grammar<F> {
    #[tactic(auto, unfolding(crate::specs::Parts::items))]
    fn items(&self, input: &mut Cursor<'_>, labels: bool) -> Result<Items<BlockItem>, ParseFault>
        requires { Nests self.now.more (F.pre self.now.inside) (F.post self.now.inside) }
        ensures reads { Reads (parts.items self.now.more labels input.old.state) input.old.end result input.new }
        ensures keeps { OnOk result (Keeps input.old.state input.new.state) }
        ensures ends { input.new.end ≡ input.old.end }
    {
        let mut found = Items::new(self.alloc);
        for _turn in 0..input.left() {
            if !goes_item(input) {
                return Ok(found);
            }
            let next = or_drop!(self.nested_item(input, labels), found);
            found = pushed(self.alloc, found, next)?;
        }
        Ok(found)
    }

    /// `{` items `}`, of a `switch` or another, in a scope that is open.
    #[tactic(auto, unfolding(c_unit_grammar::specs::Read::Statements::block, crate::specs::Parts::items))]
    pub fn block(&self, input: &mut Cursor<'_>, labels: bool) -> Result<Block, ParseFault>
        requires { Nests self.now.more (F.pre self.now.inside) (F.post self.now.inside) }
        ensures reads { Reads (spec.block self.now.more (within self.now.more) labels input.old.state) input.old.end result input.new }
        ensures keeps { OnOk result (Keeps input.old.state input.new.state) }
        ensures ends { input.new.end ≡ input.old.end }
    {
        let opening = input.opening(self.more, Punct::LeftBrace)?;
        let items = self.items(input, labels)?;
        let closing = or_drop!(input.expect(Punct::RightBrace), items);
        Ok(Block {
            opening,
            items,
            closing,
        })
    }

    /// A block, which is a scope.
    #[tactic(auto, using(c_expr_parser::proofs::Marks::mark_is_in, c_expr_parser::proofs::Marks::kept_back))]
    pub fn scoped_block(&self, input: &mut Cursor<'_>, labels: bool) -> Result<Block, ParseFault>
        requires { Nests self.now.more (F.pre self.now.inside) (F.post self.now.inside) }
        ensures reads { Reads (enclosed (spec.block self.now.more (within self.now.more) labels) input.old.state) input.old.end result input.new }
        ensures keeps { OnOk result (Keeps input.old.state input.new.state) }
        ensures ends { input.new.end ≡ input.old.end }
    {
        let scope = input.mark();
        let tree = self.block(input, labels)?;
        input.leave(scope);
        Ok(tree)
    }

    #[tactic(auto, unfolding(c_unit_grammar::specs::Read::Statements::block_statement))]
    pub fn block_statement(&self, input: &mut Cursor<'_>) -> Result<Stmt, ParseFault>
        requires { Nests self.now.more (F.pre self.now.inside) (F.post self.now.inside) }
        ensures reads { Reads (spec.block_statement self.now.more (within self.now.more) input.old.state) input.old.end result input.new }
        ensures keeps { OnOk result (Keeps input.old.state input.new.state) }
        ensures ends { input.new.end ≡ input.old.end }
    {
        Ok(Stmt::Block(self.scoped_block(input, false)?))
    }

    fn declaration_item(&self, input: &mut Cursor<'_>) -> Result<BlockItem, ParseFault>
        requires { Nests self.now.more (F.pre self.now.inside) (F.post self.now.inside) }
        ensures reads { Reads (spec.declaration_item self.now.more (within self.now.more) input.old.state) input.old.end result input.new }
        ensures keeps { OnOk result (Keeps input.old.state input.new.state) }
        ensures ends { input.new.end ≡ input.old.end }
    {
        Ok(BlockItem::Declaration(self.declaration(input)?))
    }

    fn case_item(&self, input: &mut Cursor<'_>) -> Result<BlockItem, ParseFault>
        requires { Nests self.now.more (F.pre self.now.inside) (F.post self.now.inside) }
        ensures reads { Reads (spec.case_item self.now.more (within self.now.more) input.old.state) input.old.end result input.new }
        ensures keeps { OnOk result (Keeps input.old.state input.new.state) }
        ensures ends { input.new.end ≡ input.old.end }
    {
        let word = input.expect_word(Keyword::Case)?;
        let value = input.conditional(self.alloc, self.more)?;
        let colon = or_drop!(input.expect(Punct::Colon), value);
        Ok(BlockItem::Case(word, value, colon))
    }

    fn default_item(&self, input: &mut Cursor<'_>) -> Result<BlockItem, ParseFault>
        requires { Nests self.now.more (F.pre self.now.inside) (F.post self.now.inside) }
        ensures reads { Reads (spec.default_item self.now.more (within self.now.more) input.old.state) input.old.end result input.new }
        ensures keeps { OnOk result (Keeps input.old.state input.new.state) }
        ensures ends { input.new.end ≡ input.old.end }
    {
        let word = input.expect_word(Keyword::Default)?;
        let colon = input.expect(Punct::Colon)?;
        Ok(BlockItem::Default(word, colon))
    }

    fn statement_item(&self, input: &mut Cursor<'_>) -> Result<BlockItem, ParseFault>
        requires { Nests self.now.more (F.pre self.now.inside) (F.post self.now.inside) }
        ensures reads { Reads (spec.statement_item self.now.more (within self.now.more) input.old.state) input.old.end result input.new }
        ensures keeps { OnOk result (Keeps input.old.state input.new.state) }
        ensures ends { input.new.end ≡ input.old.end }
    {
        Ok(BlockItem::Statement(self.statement(input)?))
    }

    /// An item of a block, where labels may stand or not.
    #[tactic(auto, unfolding(c_unit_grammar::specs::Read::Statements::item))]
    pub fn item(&self, input: &mut Cursor<'_>, labels: bool) -> Result<BlockItem, ParseFault>
        requires { Nests self.now.more (F.pre self.now.inside) (F.post self.now.inside) }
        ensures reads { Reads (spec.item self.now.more (within self.now.more) labels input.old.state) input.old.end result input.new }
        ensures keeps { OnOk result (Keeps input.old.state input.new.state) }
        ensures ends { input.new.end ≡ input.old.end }
    {
        match input.item_kind(labels) {
            ItemKind::Declaration => self.declaration_item(input),
            ItemKind::Case => self.case_item(input),
            ItemKind::Default => self.default_item(input),
            ItemKind::Statement => self.statement_item(input),
        }
    }
}
