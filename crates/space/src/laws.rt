//! Laws of the definitions that the space keeps to.

ghost use Rattle.std.specs.Prelude.{◌≡◌, ℕ, ◌<◌, true, length};
ghost use Rattle.tuple_tree.specs.Values.{TupleTree, TemplateTree};
ghost use Rattle.tuple_codec.specs.Operations.{Operation};
ghost use Rattle.template_match.specs.Tests.{is_match};
ghost use Rattle.space.specs.Candidates.{is_candidate};
ghost use Rattle.space.specs.Births.{SpaceState, IsNextBirth, TuplesFollow, birth_of, empty_state, state_after};
ghost use Rattle.space.specs.Laws.{StatesStay, AnswersAreValid, ReadsKnowNoClient, PagesDetermineSpace};
ghost use Rattle.space.specs.Laws.{BatchLeavesState};
ghost use Rattle.space.specs.Pages.{IsStateAt};

/// A new tuple takes the least birth number whose page has room, and such a number is never far. The 256 pages hold
/// 16,384 tuples, which is more than a space of either version holds.
pub fn births_are_least()
    ensures { (s : SpaceState) → length s.entries < 16384 → IsNextBirth s (birth_of s) }
{}

/// Each operation leaves a state.
pub fn states_stay_states()
    ensures { StatesStay }
{}

/// Each answer of a state is within the limits.
pub fn answers_are_valid()
    ensures { AnswersAreValid }
{}

/// A read knows no client, and leaves the tuples as they are.
pub fn reads_know_no_client()
    ensures { ReadsKnowNoClient }
{}

/// Births aside, a state changes as the list of its tuples.
pub fn tuples_follow_states()
    ensures { (s : SpaceState) (client : ℕ) (o : Operation)
        → TuplesFollow s (state_after s client o) client o }
{}

/// Each tuple that a template matches is one of the template's candidates.
pub fn matches_are_candidates()
    ensures { (p : TemplateTree) (t : TupleTree) → is_match p t ≡ true → is_candidate p t ≡ true }
{}

/// States are equal if their pages and headers are.
pub fn pages_determine()
    ensures { PagesDetermineSpace }
{}

/// A new space is a state before any batch. A batch of at most 16 operations leaves a state after one more batch, if
/// fewer than 2^48 were executed.
pub fn batches_leave_states()
    ensures new { IsStateAt empty_state 0 }
    ensures more { BatchLeavesState }
{}
