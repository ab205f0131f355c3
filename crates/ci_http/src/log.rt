//! What is told of the sweeps of a server, as they are made.

use ci_machine::reply::Swept;

/// Who is told of sweeps.
pub trait Log {
    ghost use Rattle.ci_machine.specs.declared.reply.Swept.{Swept as SweptOf};

    // One call that is told of this sweep leads from a state to another.
    ghost tells: { Self → SweptOf → Self → Type 0 };

    /// A sweep ended a lease, or cancelled a pipeline.
    fn tell(&mut self, swept: Swept)
        ensures { tells self.old swept self.new };
}
