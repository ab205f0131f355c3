//! The order of layers in a plan is that of `lookup`. This function does nothing: what it ensures is what the checker proves.

ghost use Rattle.std.specs.Prelude.{◌≡◌, ℕ, List};
ghost use Rattle.ci_config.specs.Prelude.{Variables, value_in, meaning_of, value_of, Job, Config};
ghost use Rattle.ci_graph_layout.specs.Inclusion.{Given, layered, seen};
ghost use Rattle.ci_graph_layout.specs.Layering.{layers_of};

use ci_config::laws::looks_up_alike;

/// The value of a name that the rules of a job see, and the one that a job has whose own variables are these, is that of the first
/// layer which has the name.
pub fn sees_the_first_layer()
    ensures rules { (given : Given) (c : Config) (job : Job) (name : List ℕ) → value_of (seen given c job) name ≡ value_in (layers_of given c job job.variables) name }
    ensures jobs { (given : Given) (c : Config) (job : Job) (own : Variables) (name : List ℕ) → meaning_of (layered given c job own) name ≡ value_in (layers_of given c job own) name }
{
    looks_up_alike();
}
