//! Whether two jobs ask the same of a runner.

ghost use Rattle.std.specs.Prelude.{◌≡◌, ◌≢◌, IsTrue, false};
ghost use Rattle.ci_machine_steps.specs.Prelude.{Pipeline};
ghost use Rattle.ci_memory_queue.specs.Covers.{asked_by, asked_of};

use crate::queue::Asks;
use ci_machine::records::{Job, QueuedJob};
use ci_machine::text::Text;

/// Are the project, the tags, in their order, and the resource group the same?
pub fn is_same(a: &Asks, b: &Asks) -> bool
    ensures same { IsTrue result → a.now ≡ b.now }
    ensures differs { result ≡ false → a.now ≢ b.now }
{
    a.project == b.project
        && same_tags(a.tags.as_slice(), b.tags.as_slice())
        && same_group(&a.group, &b.group)
}

/// Does the job ask this?
pub fn is_asked(asks: &Asks, queued: &QueuedJob) -> bool
    ensures same { IsTrue result → asks.now ≡ asked_of queued.now }
    ensures differs { result ≡ false → asks.now ≢ asked_of queued.now }
{
    asks.project == queued.project
        && same_tags(asks.tags.as_slice(), queued.job.options.tags.as_slice())
        && same_group(&asks.group, &queued.job.options.resource_group)
}

/// May it be that the job asks this? The project of its pipeline is not looked at.
pub fn may_ask(asks: &Asks, job: &Job) -> bool
    ensures { result ≡ false → (p : Pipeline) → asks.now ≢ asked_by job.now p }
{
    same_tags(asks.tags.as_slice(), job.options.tags.as_slice())
        && same_group(&asks.group, &job.options.resource_group)
}

fn same_tags(a: &[Text], b: &[Text]) -> bool
    ensures same { IsTrue result → a.now ≡ b.now }
    ensures differs { result ≡ false → a.now ≢ b.now }
{
    if a.len() != b.len() {
        return false;
    }
    for i in 0..a.len() {
        if !a[i].is_same(&b[i]) {
            return false;
        }
    }
    true
}

fn same_group(a: &Option<Text>, b: &Option<Text>) -> bool
    ensures same { IsTrue result → a.now ≡ b.now }
    ensures differs { result ≡ false → a.now ≢ b.now }
{
    match (a, b) {
        (None, None) => true,
        (Some(a), Some(b)) => a.is_same(b),
        _ => false,
    }
}
