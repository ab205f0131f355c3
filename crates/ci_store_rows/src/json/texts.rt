//! Lists of texts: the tags of a runner, the lines of a script.

ghost use Rattle.std.specs.Prelude.{◌≡◌, IfOk, OnOk, Some, string_bytes};
ghost use Rattle.serde_json.specs.Read.{read};
ghost use Rattle.ci_store_rows.specs.Reads.{ReadsList};
ghost use Rattle.ci_store_rows.specs.JsonText.{list_data, list_text};

use crate::json::lists::{parsed, texts_of, texts_value};
use ci_machine::text::Texts;
use ci_store::fault::StoreFault;
use std::alloc::{AllocError, Global};

/// The JSON list of the texts. Errors: memory was refused.
pub fn list_text(alloc: Global, texts: &Texts) -> Result<String, AllocError>
    ensures text { IfOk result (λ t. string_bytes t ≡ list_text texts.now) }
    ensures reads_back { OnOk result (read (list_text texts.now) ≡ Some (list_data texts.now)) }
{
    let value = texts_value(alloc, texts)?;
    value.to_string(alloc)
}

/// The texts of a JSON list. Errors: memory was refused, or the text is no such list.
pub fn read_list(alloc: Global, text: &str) -> Result<Texts, StoreFault>
    ensures { IfOk result (ReadsList text.now) }
{
    let value = parsed(alloc, text)?;
    texts_of(alloc, &value)
}
