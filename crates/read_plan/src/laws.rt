//! Theorems about plans of Modbus reads: no valid plan has fewer reads than the computed plan, and
//! the planning rule allows only one plan.
ghost use Rattle.std.specs.Prelude.{List, ◌≤◌, length};
ghost use Rattle.read_plan.specs.declared.run.Run.{Run};
ghost use Rattle.read_plan.specs.PlannedLists.{ListsArePlannedOnce};
ghost use Rattle.read_plan.specs.Plans.{FollowsRule, IsLawful};

/// Theorem: for all points and items (register ranges), no valid plan has fewer reads than the plan
/// that follows the planning rule. By the rule, each read begins at the first uncovered register
/// and covers as much as possible.
pub fn rule_is_least()
    ensures { (points items reads other : List Run) → FollowsRule items reads
        → IsLawful points items other → length reads ≤ length other }
{}

/// Theorem: at most one plan for each list of points follows the planning rule, and
/// `PlannedList::new` creates this plan. By the rule, each read begins at the first uncovered
/// register and covers as much as possible.
pub fn lists_are_planned_once()
    ensures { ListsArePlannedOnce }
{}
