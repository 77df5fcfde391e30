//! Bodies of forms that are given from outside the block, item by item.
ghost use Rattle.std.specs.Prelude.{◌≡◌, ◌≢◌, List, [], ◌∷◌};
ghost use Rattle.trac_language.specs.declared.item.Item as item;

use std::marker::Model;
use trac_language::Item;

/// The items of a body, given one after the other.
pub trait Body {
    /// The items still to come.
    ghost items: { Self → List item.Item };

    /// Gives the next item. There must be one.
    fn next_item(&mut self) -> Item
        requires { items self.old ≢ [] }
        ensures { items self.old ≡ result ∷ items self.new };
}

/// A text as the items of a body.
#[derive(Drop)]
pub struct TextBody<'t> {
    text: &'t [u8],
}

impl<'t> Model for TextBody<'t> {
    ghost use Rattle.trac_language.specs.Text.{Text};

    ghost Value = { Text };

    ghost view = { λ b. b.text.now };
}

impl<'t> TextBody<'t> {
    /// The characters of `text`.
    pub fn of(text: &'t [u8]) -> TextBody<'t>
        ensures { result ≡ text.now }
    {
        TextBody { text }
    }
}

impl<'t> Body for TextBody<'t> {
    ghost use Rattle.trac_language.specs.Form.{items_of};

    ghost items = { items_of };

    fn next_item(&mut self) -> Item {
        let byte = self.text[0];
        self.text = &self.text[1..];
        Item::Byte(byte)
    }
}
