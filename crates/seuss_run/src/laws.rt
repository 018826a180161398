//! What the definitions of commands, their bytes and their texts say together.

ghost use Rattle.std.specs.Prelude.{◌≡◌, ℕ, List, Result, Ok};
ghost use Rattle.report_text.specs.declared.refusals.Refused.{Refused as Reason};
ghost use Rattle.seuss_program.specs.declared.order.Placed.{Placed};
ghost use Rattle.seuss_program.specs.declared.state.State.{State};
ghost use Rattle.seuss_run.specs.Runs.{Reports};
ghost use Rattle.seuss_run.specs.Verdicts.{IsVerdict, Task, Loaded, Running};
ghost use Rattle.seuss_run.specs.declared.words.Command.{Command as Ordered};

/// Bytes mean one thing for a command: one task, or one reason to refuse them.
pub fn one_verdict()
    ensures { (c : Ordered) (bytes : List ℕ) (one other : Result Task Reason) → IsVerdict c bytes one →
        IsVerdict c bytes other →
        one ≡ other }
{
    seuss_text::one_fault();
    seuss_text::one_reading();
    seuss_text::tokens_have_kinds();
    seuss_parser::one_answer();
    seuss_parser::one_input();
    call_order::laws::one_order_of_levels();
    compat_matrix::laws::one_refusal();
    safety_texts::laws::one_list();
    crate::split::one_split();
}

/// The text of a run of accepted bytes, whatever the command that asks for it, tells the order of its
/// attempts, and the boxes that it leaves: there is one lawful order of which it is the report.
pub fn text_tells_order()
    ensures order { (c : Ordered) (bytes : List ℕ) (given : Loaded) (rounds budget status ended : ℕ)
        (order other : List Placed) (state left : State) (text : List ℕ) →
        IsVerdict c bytes (Ok (Running given)) →
        Reports given.0 given.1 rounds budget order state status text →
        Reports given.0 given.1 rounds budget other left ended text → order ≡ other }
    ensures boxes { (c : Ordered) (bytes : List ℕ) (given : Loaded) (rounds budget status ended : ℕ)
        (order other : List Placed) (state left : State) (text : List ℕ) →
        IsVerdict c bytes (Ok (Running given)) →
        Reports given.0 given.1 rounds budget order state status text →
        Reports given.0 given.1 rounds budget other left ended text → state ≡ left }
{
    seuss_print::parsed_is_printable();
    box_types::laws::names_are_own();
    call_order::laws::checked_program_keeps();
    report_text::laws::spelled_names_are_names();
    report_text::laws::one_order();
}
