//! Laws of the queue's rule.

ghost use Rattle.std.specs.Prelude.{◌≡◌, ℕ, List, ◌++◌, ◌≤◌, [], count_by, length, IsPermutation};
ghost use Rattle.ready_queue.specs.declared.view.Mark.{Mark};
ghost use Rattle.ready_queue.specs.declared.view.Row.{Row};
ghost use Rattle.ready_queue.specs.declared.view.View.{View};
ghost use Rattle.ready_queue.specs.Rules.{IsKept, IsSettled, all_of, taken_by, taken_in, is_item};
ghost use Rattle.ready_queue.specs.Gathers.{IsGathered};

/// No item is taken twice, nor taken and still in the queue: of each seat and pass there is at most one
/// among those that the queue holds and those that were taken, at every moment and once all seats were
/// joined.
pub fn items_are_taken_once()
    ensures always { (items : List Mark) (views : List View) → IsKept items views → (seat pass : ℕ) →
        count_by (is_item seat pass) (items ++ all_of taken_by views) ≤ 1 }
    ensures settled { (items : List Mark) (rows : List Row) (given : ℕ) → IsSettled items rows given →
        (seat pass : ℕ) → count_by (is_item seat pass) (items ++ taken_in rows) ≤ 1 }
{}

/// Where at least as many passes were finished as were started, and no more than were taken, the queue is
/// empty, each pass that was started was taken once, and all that were taken were finished.
pub fn all_passes_are_finished()
    ensures empty { (items : List Mark) (rows : List Row) (given : ℕ) (started : List Mark) (finished : ℕ) →
        IsGathered items rows given started finished → items ≡ [] }
    ensures taken { (items : List Mark) (rows : List Row) (given : ℕ) (started : List Mark) (finished : ℕ) →
        IsGathered items rows given started finished → IsPermutation (taken_in rows) started }
    ensures finished { (items : List Mark) (rows : List Row) (given : ℕ) (started : List Mark)
        (finished : ℕ) → IsGathered items rows given started finished → finished ≡ length (taken_in rows) }
{}
