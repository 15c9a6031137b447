ghost use Rattle.std.specs.Prelude.{◌≡◌, ℕ, List, IfOk, Some};
ghost use Rattle.text_parts.specs.Lines.{text_of};
ghost use Rattle.plan_rules.specs.declared.plan.Plan.{Plan as PlanOf};
ghost use Rattle.plan_text.specs.Misfits.{IfBad};
ghost use Rattle.plan_text.specs.PlanText.{StartsWithPlan};
ghost use Rattle.plan_text.specs.Misfits.{first_misfit, refused_line};
ghost use Rattle.plan_text.specs.inside.PlanReading.{plan_due};
ghost use Rattle.plan_text.specs.PlanText.{plan_text, HasText};
ghost use Rattle.plan_text.specs.inside.LineReading.{Gives};
ghost use Rattle.plan_text.specs.Taken.{Took};
ghost use Rattle.plan_text.specs.inside.PlanReading.{plan_of_text, GivesPlan};
ghost use Rattle.plan_text.specs.PlanText.{IsPlanText};

use crate::error::TextErr;
use crate::read;
use plan_rules::Plan;
use road_types::Road;
use std::alloc::Global;
use text_parts::Lines;

/// Reads one plan text of the road from the front of the lines and leaves exactly the rest.
/// `Bad` comes exactly where no front of the lines is one, with the number, by `Lines::number`, of the first line
/// that isn't of the form due at its place, or one more than the last line's where the text ends too early.
pub fn read_plan(alloc: Global, road: &Road, lines: &mut Lines) -> Result<Plan, TextErr>
    ensures due { Gives (plan_due road.now lines.old) result lines.new }
    ensures fits { IfOk result (HasText road.now) }
    ensures found { IfOk result (λ plan. Took lines.old lines.new (plan_text road.now plan)) }
    ensures only { IfBad result
        (λ _. (plan : PlanOf) (rest : List ℕ) → ¬ (StartsWithPlan road.now lines.old plan rest)) }
    ensures exact { (plan : PlanOf) (rest : List ℕ) → StartsWithPlan road.now lines.old plan rest
        → IfOk result (λ read. (read ≡ plan) × (text_of lines.new.left ≡ rest)) }
    ensures line { IfBad result (λ line. first_misfit road.now lines.old.number lines.old.left ≡ Some line) }
{
    read::plan(alloc, road, lines)
}

/// The plan whose text the bytes are, to their last byte.
/// `Bad` comes exactly where they are the text of no plan of the road, with the number, from 1, of the first line
/// that isn't of the form due at its place or stands behind a whole plan text, or one more than the last line's
/// where they end too early.
pub fn read_whole_plan(alloc: Global, road: &Road, bytes: &[u8]) -> Result<Plan, TextErr>
    ensures due { GivesPlan (plan_of_text road.now bytes.now) result }
    ensures found { IfOk result (IsPlanText road.now bytes.now) }
    ensures only { IfBad result (λ _. (plan : PlanOf) → ¬ (IsPlanText road.now bytes.now plan)) }
    ensures line { IfBad result (λ line. refused_line road.now bytes.now ≡ Some line) }
{
    read::whole_plan(alloc, road, bytes)
}
