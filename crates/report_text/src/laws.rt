//! What the texts tell.

ghost use Rattle.std.specs.Prelude.{◌≡◌, ◌≢◌, ℕ, ◌==◌, ◌||◌, IsTrue, List, []};
ghost use Rattle.std.specs.Char.{is_ascii_alphanumeric};
ghost use Rattle.std.specs.List.{list_all};
ghost use Rattle.seuss_program.specs.declared.tree.Name.{Name};
ghost use Rattle.seuss_program.specs.declared.program.Program.{Program};
ghost use Rattle.seuss_program.specs.declared.order.Placed.{Placed};
ghost use Rattle.seuss_program.specs.declared.state.State.{State};
ghost use Rattle.seuss_program.specs.Keeping.{Keeps};
ghost use Rattle.seuss_program.specs.Orders.{IsLawful, slots_of};
ghost use Rattle.seuss_program.specs.Reports.{report};
ghost use Rattle.report_text.specs.Names.{HasNames, IsName};

/// The bytes of a report tell its order: lawful orders with equal reports are equal, whatever their states.
pub fn one_order()
    ensures { (p : Program) (rounds : ℕ) (order other : List Placed) (state after : State) → Keeps p →
        HasNames p →
        IsLawful (slots_of p) rounds order → IsLawful (slots_of p) rounds other →
        report p rounds order state ≡ report p rounds other after → order ≡ other }
{}

/// What is spelled with letters, digits and `_` is a name that a report tells, where it has a byte.
pub fn spelled_names_are_names()
    ensures { (name : Name) → name.text ≢ [] →
        IsTrue (list_all (λ (b : ℕ). is_ascii_alphanumeric b || b == 95) name.text) → IsName name }
{}
