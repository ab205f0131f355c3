//! Lists in JSON, and values as they are read.

ghost use Rattle.std.specs.Prelude.{◌≡◌, map, Some, IfOk};
ghost use Rattle.serde_json.specs.Data.{array, boolean, number, string, unsigned};
ghost use Rattle.serde_json.specs.Find.{get};
ghost use Rattle.serde_json.specs.Read.{read};
ghost use Rattle.serde_json.specs.View.{view};
ghost use Rattle.ci_store_rows.specs.JsonText.{strings, numbers};

use ci_machine::text::{Text, Texts};
use ci_store::fault::StoreFault;
use ci_values::items::Items;
use serde_json::Value;
use std::alloc::{AllocError, Global};

/// The value of a JSON text. Errors: memory was refused, or it is none.
pub(crate) fn parsed(alloc: Global, text: &str) -> Result<Value, StoreFault>
    ensures { IfOk result (λ v. read text.now ≡ Some (view v)) }
{
    match Value::from_str(alloc, text) {
        Ok(value) => Ok(value),
        Err(error) if error.is_memory() => Err(StoreFault::Memory),
        Err(_) => Err(StoreFault::Broken),
    }
}

/// The member of an object under a name. Errors: there is none.
pub(crate) fn member<'a>(object: &'a Value, name: &str) -> Result<&'a Value, StoreFault>
    ensures { IfOk result (λ v. get name.now (view object.now) ≡ Some (view v.now)) }
{
    match object.get(name) {
        Some(value) => Ok(value),
        None => Err(StoreFault::Broken),
    }
}

pub(crate) fn flag_of(value: &Value) -> Result<bool, StoreFault>
    ensures { IfOk result (λ b. view value.now ≡ boolean b) }
{
    value.as_bool().ok_or(StoreFault::Broken)
}

pub(crate) fn number_of(value: &Value) -> Result<u32, StoreFault>
    ensures { IfOk result (λ n. view value.now ≡ number (unsigned n)) }
{
    let number = value.as_u64().ok_or(StoreFault::Broken)?;
    u32::try_from(number).map_err(|_| StoreFault::Broken)
}

pub(crate) fn text_of(alloc: Global, value: &Value) -> Result<Text, StoreFault>
    ensures { IfOk result (λ t. view value.now ≡ string t) }
{
    match value.as_str() {
        Some(text) => Ok(Text::copy_of(alloc, text)?),
        None => Err(StoreFault::Broken),
    }
}

pub(crate) fn texts_value(alloc: Global, texts: &Texts) -> Result<Value, AllocError>
    ensures { IfOk result (λ v. view v ≡ array (strings texts.now)) }
{
    let mut items = Vec::new(alloc);
    for text in texts.as_slice() {
        items.push(Value::try_from_str(alloc, text.as_str())?)?;
    }
    Ok(Value::Array(items))
}

fn texts_in(alloc: Global, items: &[Value]) -> Result<Texts, StoreFault>
    ensures { IfOk result (λ ts. map view items.now ≡ map string ts) }
{
    let mut texts = Vec::new(alloc);
    for item in items {
        texts.push(text_of(alloc, item)?)?;
    }
    Ok(Texts::new(texts))
}

pub(crate) fn texts_of(alloc: Global, value: &Value) -> Result<Texts, StoreFault>
    ensures { IfOk result (λ ts. view value.now ≡ array (strings ts)) }
{
    match value.as_array() {
        Some(items) => texts_in(alloc, items.as_slice()),
        None => Err(StoreFault::Broken),
    }
}

pub(crate) fn numbers_value(alloc: Global, list: &[u32]) -> Result<Value, AllocError>
    ensures { IfOk result (λ v. view v ≡ array (numbers list.now)) }
{
    let mut items = Vec::new(alloc);
    for number in list {
        items.push(Value::from(*number))?;
    }
    Ok(Value::Array(items))
}

fn numbers_in(alloc: Global, items: &[Value]) -> Result<Items<u32>, StoreFault>
    ensures { IfOk result (λ ns. map view items.now ≡ map (λ n. number (unsigned n)) ns) }
{
    let mut numbers = Vec::new(alloc);
    for item in items {
        numbers.push(number_of(item)?)?;
    }
    Ok(Items::new(numbers))
}

pub(crate) fn numbers_of(alloc: Global, value: &Value) -> Result<Items<u32>, StoreFault>
    ensures { IfOk result (λ ns. view value.now ≡ array (numbers ns)) }
{
    match value.as_array() {
        Some(items) => numbers_in(alloc, items.as_slice()),
        None => Err(StoreFault::Broken),
    }
}
