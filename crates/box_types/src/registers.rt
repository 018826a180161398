//! Tables from the names of items to their numbers.
ghost use Rattle.std.specs.Prelude.{◌≡◌, ℕ, List, OnOk, IfOk, cond, None, Some};
ghost use Rattle.std.specs.Str.{bytes_eq};
ghost use Rattle.box_types.specs.Registers.{HasNumbers, found};
ghost use Rattle.box_types.specs.Scopes.{or_else, number_of};

use crate::names::Named;
use indexmap::IndexMap;
use seuss_base::Memory;
use seuss_program::Name;
use std::alloc::Global;

/// Items in the order of their declaration, numbered by their names.
#[derive(Drop)]
pub(crate) struct Register<'a, T: Named> {
    pub(crate) items: &'a [T],
    numbers: IndexMap<&'a [u8], usize>,
    ghost are_numbers: { HasNumbers T.name_of items.now numbers },
}

impl<'a, T: Named> Register<'a, T> {
    /// Numbers items from 0. Of two items with the same name, the first one gives the name its number.
    pub(crate) fn new(alloc: Global, items: &'a [T]) -> Result<Register<'a, T>, Memory>
        ensures { IfOk result (λ register. register.items.now ≡ items.now) }
    {
        let mut numbers = IndexMap::new(alloc);
        for (number, item) in items.iter().enumerate() {
            note(&mut numbers, item.name(), number)?;
        }
        Ok(Register { items, numbers })
    }

    /// The number of a name, or None where no item has it.
    pub(crate) fn number(&self, name: &Name) -> Option<usize>
        ensures { result ≡ number_of T.name_of self.now.items.now name.now }
    {
        self.numbers.get(name.text.as_bytes()).copied()
    }
}

/// Notes the number of a name that has none yet.
fn note<'a>(
    numbers: &mut IndexMap<&'a [u8], usize>,
    name: &'a Name,
    number: usize,
) -> Result<(), Memory>
    ensures noted { OnOk result ((text : List ℕ) → found numbers.new text
        ≡ or_else (found numbers.old text) (cond (bytes_eq name.now.text text) (Some number) None)) }
{
    let text = name.text.as_bytes();
    if numbers.contains_key(text) {
        return Ok(());
    }
    match numbers.insert(text, number) {
        Ok(_) => Ok(()),
        Err(_) => Err(Memory),
    }
}
