//! Laws of the definitions. These functions do nothing: what they ensure is what the checker proves.

ghost use Rattle.std.specs.Prelude.{◌≡◌, []};
ghost use Rattle.ci_config.specs.Prelude.{ConfigLacksPatterns, config_view};
ghost use Rattle.ci_config.specs.declared.file.Config.{Config};
ghost use Rattle.ci_graph_layout.specs.Inclusion.{Given};
ghost use Rattle.ci_graph_layout.specs.Searches.{all_looks};

use ci_expr::laws::costs_nothing_without_patterns;

/// The rules of a file without a pattern look for nothing.
pub fn searches_for_patterns_alone()
    ensures { (g : Given) (c : Config) → ConfigLacksPatterns (config_view c) → all_looks g c ≡ [] }
{
    costs_nothing_without_patterns();
}
