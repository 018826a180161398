//! What determines the program of a text, and what the program keeps.

ghost use Rattle.std.specs.Prelude.{◌≡◌, []};
ghost use Rattle.seuss_program.specs.declared.tree.Tree.{Tree};
ghost use Rattle.seuss_program.specs.declared.program.Program.{Program};
ghost use Rattle.seuss_program.specs.Keeping.{Keeps};
ghost use Rattle.seuss_program.specs.WellFormed.{IsWellFormed};
ghost use Rattle.box_types.specs.Namings.{named};
ghost use Rattle.box_types.specs.Refusals.{IsAccepted};
ghost use Rattle.call_order.specs.Calls.{partial_calls, total_calls};
ghost use Rattle.call_order.specs.Answers.{IsOrdered};
ghost use Rattle.call_order.specs.Cycles.{HasNoCycle};
ghost use Rattle.call_order.specs.Levels.{IsLevelled};

/// Levels are determined: of programs that differ in the levels of their boxes alone, where each level is 0
/// or one more than the greatest of the given boxes, there is one. So a text has one program.
pub fn one_order_of_levels()
    ensures levels { (named one other : Program) → IsLevelled named one → IsLevelled named other →
        one ≡ other }
    ensures program { (tree : Tree) (one other : Program) → IsOrdered one tree → IsOrdered other tree →
        one ≡ other }
{}

/// A text whose calls are right and whose boxes stand in no cycle has a program. The program of a text that
/// passes every check keeps what a checked program keeps.
pub fn checked_program_keeps()
    ensures ordered { (tree : Tree) → partial_calls tree ≡ [] → total_calls tree ≡ [] →
        HasNoCycle (named tree).boxes → (p : Program) × IsOrdered p tree }
    ensures keeps { (tree : Tree) (p : Program) → IsWellFormed tree → IsAccepted tree → IsOrdered p tree →
        Keeps p }
{}
