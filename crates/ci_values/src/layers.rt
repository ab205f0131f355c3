//! Layers of variables.

ghost use Rattle.std.specs.Prelude.{◌≡◌, option_map};
ghost use Rattle.ci_values.specs.Table.{meaning_of};
ghost use Rattle.ci_values.specs.Layers.{text_view, layer_view, layers_view, value_in};

/// The variables of a layer: names with their values. Of two pairs with one name the first counts.
pub type Layer<'a> = &'a [(&'a str, &'a str)];

/// The variables that a job sees, the highest layer first.
#[derive(Clone, Copy)]
pub struct Layers<'a> {
    /// Those of the pipeline's request.
    pub pipeline: Layer<'a>,
    /// Those of the project.
    pub project: Layer<'a>,
    /// Those of the matching rule, and then those of the job.
    pub job: Layer<'a>,
    /// Those of the file's top level.
    pub file: Layer<'a>,
    /// Those that are predefined.
    pub predefined: Layer<'a>,
}

/// The value of a name in a layer.
fn value_in_layer<'a>(layer: Layer<'a>, name: &str) -> Option<&'a str>
    ensures { option_map text_view result ≡ meaning_of (layer_view layer.now) name.now }
{
    for pair in layer {
        if pair.0 == name {
            return Some(pair.1);
        }
    }
    None
}

/// The value of a variable: that of the first layer which has it.
pub fn lookup<'a>(layers: &Layers<'a>, name: &str) -> Option<&'a str>
    ensures { option_map text_view result ≡ value_in (layers_view layers.now) name.now }
{
    if let Some(value) = value_in_layer(layers.pipeline, name) {
        return Some(value);
    }
    if let Some(value) = value_in_layer(layers.project, name) {
        return Some(value);
    }
    if let Some(value) = value_in_layer(layers.job, name) {
        return Some(value);
    }
    if let Some(value) = value_in_layer(layers.file, name) {
        return Some(value);
    }
    value_in_layer(layers.predefined, name)
}
