//! What a runner's request and a sweep look for, as a store finds it, and the records of a pipeline, as a store lends them.

ghost use Rattle.std.specs.Prelude.{◌≡◌};
ghost use Rattle.ci_machine_steps.specs.Prelude.{first_due, leases, redundant_in, Kept};
ghost use Rattle.ci_store.specs.Prelude.{LoadsBy};
ghost use Rattle.ci_server_lookups.specs.Keeps.{IsKept, HoldsKept};
ghost use Rattle.ci_server_lookups.specs.Search.{IsOffered};
ghost use Rattle.ci_server_lookups.specs.Sheets.{IsRight};
ghost use Rattle.ci_server_lookups.specs.Unfinished.{AreOpen};

use crate::search::Offer;
use crate::sheet::Sheet;
use crate::turns::Turns;
use ci_machine::lease::Lease;
use ci_machine::moment::Moment;
use ci_machine::records::{Pipeline, Runner};
use ci_store::fault::StoreFault;
use ci_store::store::Store;
use std::alloc::Global;

/// A store that finds the first of many: it may look through its tables, or remember where to look.
pub trait Searches: Turns {
    /// The first pending job, by number, that the runner may be given, with its row.
    fn first_offer(&mut self, alloc: Global, runner: &Runner) -> Result<Option<Offer>, StoreFault>
        ensures { LoadsBy Self.honest Self.holds Self.leaves self.old self.new result (λ k found. IsKept k → IsOffered k runner.now found) };

    /// The first live attempt, by number, whose lease is over at a moment, with the time limit of its job.
    fn first_due(&mut self, alloc: Global, now: Moment) -> Result<Option<Lease>, StoreFault>
        ensures { LoadsBy Self.honest Self.holds Self.leaves self.old self.new result (λ k found. found ≡ first_due (leases k.state) now) };

    /// The numbers of the pipelines that aren't finished, in any order, where what the store holds is what the machine may come to: what is
    /// learned of pipelines from the rows of their jobs is right only of that.
    fn unfinished(&mut self, alloc: Global) -> Result<Vec<u64>, StoreFault>
        ensures { LoadsBy Self.honest (HoldsKept Self.holds) Self.leaves self.old self.new result (λ k numbers. AreOpen k numbers.items) };

    /// The redundant pipeline of least number, where what the store holds is what the machine may come to.
    fn first_redundant(&mut self, alloc: Global) -> Result<Option<Pipeline>, StoreFault>
        ensures { LoadsBy Self.honest (HoldsKept Self.holds) Self.leaves self.old self.new result (λ k found. found ≡ redundant_in k.state k.board) };

    /// The records of a pipeline, taken out of what is remembered where they are remembered. Who changes nothing of what the store holds may
    /// have them kept again.
    fn take_sheet(&mut self, pipeline: u64) -> Result<Sheet, StoreFault>
        ensures { LoadsBy Self.honest Self.holds Self.leaves self.old self.new result (λ k sheet. IsRight sheet k × (sheet.pipeline ≡ pipeline)) };

    /// Keeps the records of a pipeline, where the store remembers any.
    fn keep_sheet(&mut self, sheet: Sheet)
        ensures honest { Self.honest self.new → Self.honest self.old }
        ensures kept { (k : Kept) → Self.holds self.old k → IsRight sheet k → Self.holds self.new k };
}
