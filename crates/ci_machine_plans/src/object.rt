//! An object of JSON, made member by member. Its members stand in the order of their keys' bytes, in whatever order they are
//! put into it.

ghost use Rattle.std.specs.Prelude.{◌≡◌, false, IfOk};
ghost use Rattle.serde_json.specs.Data.{no_members, boolean, number, string, object, unsigned, put as with_member};
ghost use Rattle.serde_json.specs.View.{view};
ghost use Rattle.serde_json.specs.Written.{compact_text, has_float};
ghost use Rattle.ci_machine_steps.specs.Prelude.{stamp_text};
ghost use Rattle.ci_machine_plans.specs.Objects.{members_of};

use ci_machine::moment::{Moment, stamp_text};
use ci_machine::text::Text;
use serde_json::{Map, Number, Value, put};
use std::alloc::{AllocError, Global};

/// An object with the members that were put into it so far.
#[derive(Drop)]
pub(crate) struct Object {
    pub(crate) members: Map<String, Value>,
}

impl Object {
    /// An object with no member.
    pub(crate) fn new(alloc: Global) -> Object
        ensures { members_of result ≡ no_members }
    {
        Object {
            members: Map::new(alloc),
        }
    }

    /// The object with this value at the key.
    pub(crate) fn with(self, alloc: Global, key: &str, value: Value) -> Result<Object, AllocError>
        ensures { IfOk result (λ o. members_of o ≡ with_member key.now (view value) (members_of self)) }
    {
        let Object { mut members } = self;
        put(&mut members, alloc, key, value)?;
        Ok(Object { members })
    }

    /// The object with this number at the key.
    pub(crate) fn with_number(self, alloc: Global, key: &str, n: u64) -> Result<Object, AllocError>
        ensures { IfOk result (λ o. members_of o ≡ with_member key.now (number (unsigned n)) (members_of self)) }
    {
        self.with(alloc, key, Value::Number(Number::from(n)))
    }

    /// The object with yes or no at the key.
    pub(crate) fn with_flag(
        self,
        alloc: Global,
        key: &str,
        flag: bool,
    ) -> Result<Object, AllocError>
        ensures { IfOk result (λ o. members_of o ≡ with_member key.now (boolean flag) (members_of self)) }
    {
        self.with(alloc, key, Value::Bool(flag))
    }

    /// The object with this text at the key.
    pub(crate) fn with_text(
        self,
        alloc: Global,
        key: &str,
        text: &str,
    ) -> Result<Object, AllocError>
        ensures { IfOk result (λ o. members_of o ≡ with_member key.now (string text.now) (members_of self)) }
    {
        let value = Value::try_from_str(alloc, text)?;
        self.with(alloc, key, value)
    }

    /// The object with this moment at the key, as `YYYY-MM-DDThh:mm:ssZ`.
    pub(crate) fn with_moment(
        self,
        alloc: Global,
        key: &str,
        moment: Moment,
    ) -> Result<Object, AllocError>
        ensures { IfOk result (λ o. members_of o ≡ with_member key.now (string (stamp_text moment)) (members_of self)) }
    {
        let value = Value::String(stamp_text(alloc, moment)?);
        self.with(alloc, key, value)
    }

    /// The object, as a value.
    pub(crate) fn into_value(self) -> Value
        ensures { view result ≡ object (members_of self) }
    {
        let Object { members } = self;
        Value::Object(members)
    }

    /// The compact text of the object, where it has no float.
    pub(crate) fn into_text(self, alloc: Global) -> Result<Text, AllocError>
        requires { has_float (object (members_of self)) ≡ false }
        ensures { IfOk result (λ t. t ≡ compact_text (object (members_of self))) }
    {
        let value = self.into_value();
        Ok(Text::new(value.to_string(alloc)?))
    }
}
