//! What the checks of a text mean for its names, and what the program of a text has to do with it.
ghost use Rattle.std.specs.Prelude.{◌≡◌, []};
ghost use Rattle.seuss_program.specs.declared.tree.Name.{Name};
ghost use Rattle.seuss_program.specs.declared.tree.Ref.{Ref};
ghost use Rattle.seuss_program.specs.declared.tree.Cat.{Cat};
ghost use Rattle.seuss_program.specs.declared.tree.Tree.{Tree};
ghost use Rattle.box_types.specs.Faults.{twice};
ghost use Rattle.box_types.specs.Locals.{Locals};
ghost use Rattle.box_types.specs.Meanings.{NameStands, Stands};
ghost use Rattle.box_types.specs.Namings.{named};
ghost use Rattle.box_types.specs.OwnNames.{HasOwnNames};
ghost use Rattle.box_types.specs.Refusals.{IsAccepted};

/// Where no name stands twice that may stand once, boxes have names of their own, and so have the
/// procedures of each cat.
pub fn names_are_own()
    ensures { (tree : Tree) → twice tree ≡ [] → HasOwnNames tree }
{}

/// The program of a text that passes the checks is what the text stands for: each name is the number of the
/// visible local, variable, given box, method, cat or box that it names, and the rest is the same.
pub fn named_stands()
    ensures { (tree : Tree) → IsAccepted tree → Stands tree (named tree) }
{}

/// A name that is evaluated or assigned stands for one thing only.
pub fn names_mean_one()
    ensures { (own : Cat Name) (here : Locals) (name : Name) (first second : Ref) →
        NameStands own here name first → NameStands own here name second → first ≡ second }
{}
