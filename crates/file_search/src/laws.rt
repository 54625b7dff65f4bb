//! The law of searches for rows by a plan: what holds of all of them, whatever calls gave them.
//!
//! The function does nothing when it runs. Its contract is a law over the definitions in `specs/`, and its
//! proof is the law's proof.

ghost use Rattle.file_search.specs.Laws.{PlansFindRows};

use record_search::laws::decisions_are_right;

/// A plan, the bytes of the zones that it reads, and the rows that are found in each of them give what a
/// search by the index gives.
pub fn plans_find_rows()
    ensures { PlansFindRows }
{
    decisions_are_right();
}
