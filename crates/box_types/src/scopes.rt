//! The locals that are visible at a place of a procedure, and their slots.
ghost use Rattle.std.specs.Prelude.{◌≡◌, [], take, OnOk};
ghost use Rattle.box_types.specs.Scopes.{declared, at_head, with_result};

use seuss_base::{List, Memory, Text};
use seuss_program::{Kind, Name, Proc};
use std::alloc::Global;

/// A parameter, the result or a local of a procedure, with its slot, counted from 0.
#[derive(Debug, Drop)]
pub struct Local {
    pub name: Name,
    pub kind: Kind,
    pub slot: u64,
    pub is_param: bool,
}

/// The locals at a place of a procedure: those that are visible, how many slots were given before the
/// place, and the names of all locals of the cat up to it.
#[derive(Debug, Drop)]
pub struct Scope {
    pub visible: List<Local>,
    pub next: u64,
    pub earlier: List<Name>,
}

/// What a name stands for inside a cat. Numbers count from 0 among the things of their sort.
#[derive(Clone, Copy, Debug, PartialEq, Eq)]
pub enum Meaning {
    Slot {
        slot: u64,
        kind: Kind,
        is_param: bool,
    },
    Variable {
        number: usize,
        kind: Kind,
    },
    GivenBox(usize),
    Procedure(usize),
    Nothing,
}

impl Scope {
    /// No name is visible, and none was declared.
    pub fn empty(alloc: Global) -> Scope
        ensures { result ≡ record { visible = []; next = 0; earlier = [] } }
    {
        Scope {
            visible: List::new(alloc),
            next: 0,
            earlier: List::new(alloc),
        }
    }

    /// Enters a procedure: only its result is visible, and no slot is taken.
    pub fn enter(&mut self, alloc: Global, proc: &Proc<Name>) -> Result<(), Memory>
        ensures { OnOk result (self.new ≡ at_head proc.now self.old.earlier) }
    {
        let mut visible = List::new(alloc);
        if proc.gives {
            let text = Text::from_slice(alloc, b"result")?;
            visible.push(Local {
                name: Name { text, line: 0 },
                kind: Kind::Int,
                slot: proc.params.len(),
                is_param: false,
            })?;
        }
        self.visible = visible;
        self.next = 0;
        Ok(())
    }

    /// Declares a name, which takes the next slot.
    pub fn declare(
        &mut self,
        alloc: Global,
        name: &Name,
        kind: Kind,
        is_param: bool,
    ) -> Result<(), Memory>
        ensures { OnOk result (self.new ≡ declared name.now kind is_param self.old) }
    {
        let after = self.next.checked_add(1).ok_or(Memory)?;
        self.visible.push(Local {
            name: name.copy(alloc)?,
            kind,
            slot: self.next,
            is_param,
        })?;
        self.earlier.push(name.copy(alloc)?)?;
        self.next = after;
        Ok(())
    }

    /// Gives the result of a procedure, where it has one, the next slot.
    pub fn reserve_result(&mut self, proc: &Proc<Name>) -> Result<(), Memory>
        ensures { OnOk result (self.new ≡ with_result proc.now self.old) }
    {
        if proc.gives {
            self.next = self.next.checked_add(1).ok_or(Memory)?;
        }
        Ok(())
    }

    /// Leaves a block: the names behind the first `count` aren't visible any more.
    pub fn leave(&mut self, count: u64)
        ensures visible { self.new.visible ≡ take count self.old.visible }
        ensures next { self.new.next ≡ self.old.next }
        ensures earlier { self.new.earlier ≡ self.old.earlier }
    {
        while self.visible.len() > count {
            self.visible.pop();
        }
    }
}
