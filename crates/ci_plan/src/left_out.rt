//! The jobs of the file that the pipeline doesn't have.

ghost use Rattle.std.specs.Prelude.{◌≡◌, IfOk, map};
ghost use Rattle.ci_graph_layout.specs.Prelude.{decided_view};
ghost use Rattle.ci_plan.specs.Rules.{left_out, leaves_out};

use crate::records::LeftOut;
use ci_config::RuleWhen;
use ci_graph_layout::{Decided, Decision};
use ci_machine::text::Text;
use ci_values::items::Items;
use std::alloc::{AllocError, Global};

/// What is told of a job, where the pipeline doesn't have it.
fn left_out_job(alloc: Global, decided: &Decided) -> Result<Option<LeftOut>, AllocError>
    ensures { IfOk result (λ o. o ≡ leaves_out (decided_view decided.now)) }
{
    let rule = match decided.decision {
        Decision::NoRules => return Ok(None),
        Decision::ByRule(number, rule) => match rule.when {
            Some(RuleWhen::Never) => Some(number),
            Some(RuleWhen::Runs(_)) | None => return Ok(None),
        },
        Decision::NoneMatches => None,
    };
    let name = Text::copy_of(alloc, decided.job.name)?;
    Ok(Some(LeftOut { name, rule }))
}

/// Those of a file's jobs that the pipeline doesn't have, in their order.
pub(crate) fn left_out(alloc: Global, decided: &[Decided]) -> Result<Items<LeftOut>, AllocError>
    ensures { IfOk result (λ os. os ≡ left_out (map decided_view decided.now)) }
{
    let mut found = Vec::new(alloc);
    for job in decided {
        if let Some(one) = left_out_job(alloc, job)? {
            found.push(one)?;
        }
    }
    Ok(Items::new(found))
}
