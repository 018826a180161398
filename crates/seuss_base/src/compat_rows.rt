//! Tables with the level of each ordered pair of actions.

ghost use Rattle.std.specs.Prelude.{◌≡◌, ℕ, ◌+◌, ◌*◌, ◌<◌, ◌≤◌, IfOk};
ghost use Rattle.seuss_base.specs.Tables.{level_at, Sets};
ghost use Rattle.seuss_base.specs.declared.level.Level.TheVariants.{Never};

use crate::{Level, Memory};
use std::alloc::Global;
use std::marker::Model;

/// The level of each ordered pair of actions.
#[derive(Debug, Drop)]
pub struct CompatRows {
    count: u32,
    levels: Vec<Level>,
}

impl Model for CompatRows {
    ghost use Rattle.std.specs.Prelude.{◌≡◌, ◌*◌, ◌≤◌, length, vec_len};
    ghost use Rattle.seuss_base.specs.Tables.{Table};

    ghost Value = { Table };

    ghost view = { λ rows. record { count = rows.count; levels = rows.levels.items } };

    ghost invariant = { λ rows. (rows.count ≤ 256) × (length rows.levels.items ≡ rows.count * rows.count) };
}

impl CompatRows {
    /// A table of `count` actions, with the level never at each pair.
    pub fn new(alloc: Global, count: u32) -> Result<CompatRows, Memory>
        requires { count ≤ 256 }
        ensures count { IfOk result (λ rows. rows.count ≡ count) }
        ensures never { IfOk result (λ rows. (a b : ℕ) → a < count → b < count → level_at rows a b ≡ Never) }
    {
        let cells = (count * count) as usize;
        let levels = vec![in alloc; Level::Never; cells]?;
        Ok(CompatRows { count, levels })
    }

    /// How many actions there are.
    pub fn count(&self) -> u32
        ensures value { result ≡ self.now.count }
        ensures few { result ≤ 256 }
    {
        self.count
    }

    /// How far the first action is safe beside the second one.
    pub fn level(&self, a: u32, b: u32) -> Level
        requires first { a < self.now.count }
        requires second { b < self.now.count }
        ensures { result ≡ level_at self.now a b }
    {
        self.levels[place(self.count, a, b)]
    }

    /// Gives the ordered pair this level.
    pub fn set(&mut self, a: u32, b: u32, level: Level)
        requires first { a < self.old.count }
        requires second { b < self.old.count }
        ensures { Sets self.old self.new a b level }
    {
        let at = place(self.count, a, b);
        self.levels[at] = level;
    }

    /// An equal table of its own.
    pub fn copy(&self, alloc: Global) -> Result<CompatRows, Memory>
        ensures { IfOk result (λ rows. rows ≡ self.now) }
    {
        let levels = Vec::from_slice(alloc, self.levels.as_slice())?;
        Ok(CompatRows {
            count: self.count,
            levels,
        })
    }
}

/// Where the level of row `a` and column `b` stands, in a table of `count` rows.
fn place(count: u32, a: u32, b: u32) -> usize
    requires few { count ≤ 256 }
    requires first { a < count }
    requires second { b < count }
    ensures value { result ≡ a * count + b }
    ensures within { result < count * count }
{
    (a * count + b) as usize
}
