ghost use Rattle.std.specs.Prelude.{◌≡◌, true, map, option_map, IfOk, string_bytes};
ghost use Rattle.serde_json.specs.Find.{get, as_str, as_bool};
ghost use Rattle.serde_json.specs.View.{view, members_view};
ghost use Rattle.plant_text.specs.Kinds.{whole_number, whole_numbers, pair, pairs};
ghost use Rattle.plant_text.specs.Names.{key_name};
ghost use Rattle.plant_text.specs.Walk.{misshapen, opened, closed, has_only, keyed_by, format_of, field};
ghost use Rattle.std.specs.BTreeMap as tree;
ghost use Rattle.std.specs.List.{list_any, list_all};
ghost use Rattle.std.specs.Str.{bytes_eq};
ghost use Rattle.plant_text.specs.Gives.{Gives};

use crate::fault::PlantTextFault;
use crate::kinds::{self, PlantFormat};
use crate::names::key_name;
use plant_model::{Key, Name, Numbers, Pair, Pairs, Place, Section};
use serde_json::{Map, Value};
use std::alloc::Global;

/// An entry of the plant text, with the place where it stands.
#[derive(Clone, Copy)]
pub(crate) struct Entry<'a> {
    pub(crate) value: &'a Value,
    pub(crate) section: Section,
    pub(crate) index: u32,
}

impl<'a> Entry<'a> {
    /// The entry at this place, which is an object.
    pub(crate) fn open(
        value: &'a Value,
        section: Section,
        index: u32,
    ) -> Result<Entry<'a>, PlantTextFault>
        ensures opened { Gives (λ _. true) result (opened section index (view value.now)) }
        ensures value { IfOk result
            (λ entry. (entry.value.now ≡ value.now) × (entry.section ≡ section) × (entry.index ≡ index)) }
    {
        let entry = Entry {
            value,
            section,
            index,
        };
        if value.is_object() {
            Ok(entry)
        } else {
            Err(entry.misshapen(Key::Entry))
        }
    }

    /// The walk ends at this key.
    fn misshapen(&self, key: Key) -> PlantTextFault
        ensures { result ≡ misshapen self.now.section self.now.index key }
    {
        PlantTextFault::Shape(Place {
            section: self.section,
            index: self.index,
            key,
        })
    }

    /// What stands under a key.
    fn under(&self, key: Key) -> Option<&'a Value>
        ensures { option_map (λ value. view value.now) result ≡ get (key_name key) (view self.now.value.now) }
    {
        self.value.get(key_name(key))
    }

    /// The text under a key.
    pub(crate) fn text(&self, key: Key) -> Result<&'a str, PlantTextFault>
        ensures { Gives (λ text. text.now) result
            (field as_str self.now.section self.now.index key (view self.now.value.now)) }
    {
        match self.under(key).and_then(Value::as_str) {
            Some(text) => Ok(text),
            None => Err(self.misshapen(key)),
        }
    }

    /// The whole number under a key.
    pub(crate) fn whole_number(&self, key: Key) -> Result<i64, PlantTextFault>
        ensures { Gives (λ number. number) result
            (field whole_number self.now.section self.now.index key (view self.now.value.now)) }
    {
        match self.under(key).and_then(kinds::whole_number) {
            Some(number) => Ok(number),
            None => Err(self.misshapen(key)),
        }
    }

    /// The format under a key.
    pub(crate) fn format(&self, key: Key) -> Result<PlantFormat, PlantTextFault>
        ensures { Gives (λ format. format) result
            (field format_of self.now.section self.now.index key (view self.now.value.now)) }
    {
        match self.under(key).and_then(kinds::format_of) {
            Some(format) => Ok(format),
            None => Err(self.misshapen(key)),
        }
    }

    /// True or false under a key.
    pub(crate) fn flag(&self, key: Key) -> Result<bool, PlantTextFault>
        ensures { Gives (λ flag. flag) result
            (field as_bool self.now.section self.now.index key (view self.now.value.now)) }
    {
        match self.under(key).and_then(Value::as_bool) {
            Some(flag) => Ok(flag),
            None => Err(self.misshapen(key)),
        }
    }

    /// The pair under a key.
    pub(crate) fn pair(&self, key: Key) -> Result<Pair, PlantTextFault>
        ensures { Gives (λ pair. pair) result
            (field pair self.now.section self.now.index key (view self.now.value.now)) }
    {
        match self.under(key).and_then(kinds::pair) {
            Some(pair) => Ok(pair),
            None => Err(self.misshapen(key)),
        }
    }

    /// The name under a key.
    pub(crate) fn name(&self, alloc: Global, key: Key) -> Result<Name, PlantTextFault>
        ensures { Gives (λ name. name) result
            (field as_str self.now.section self.now.index key (view self.now.value.now)) }
    {
        let text = self.text(key)?;
        Ok(Name::new(alloc, text.as_bytes())?)
    }

    /// The list of whole numbers under a key.
    pub(crate) fn whole_numbers(&self, alloc: Global, key: Key) -> Result<Numbers, PlantTextFault>
        ensures { Gives (λ numbers. numbers) result
            (field whole_numbers self.now.section self.now.index key (view self.now.value.now)) }
    {
        let Some(value) = self.under(key) else {
            return Err(self.misshapen(key));
        };
        match kinds::whole_numbers(alloc, value)? {
            Some(numbers) => Ok(numbers),
            None => Err(self.misshapen(key)),
        }
    }

    /// The list of pairs under a key.
    pub(crate) fn pairs(&self, alloc: Global, key: Key) -> Result<Pairs, PlantTextFault>
        ensures { Gives (λ pairs. pairs) result
            (field pairs self.now.section self.now.index key (view self.now.value.now)) }
    {
        let Some(value) = self.under(key) else {
            return Err(self.misshapen(key));
        };
        match kinds::pairs(alloc, value)? {
            Some(pairs) => Ok(pairs),
            None => Err(self.misshapen(key)),
        }
    }

    /// The entry has no key but these.
    pub(crate) fn close(&self, keys: &[&str]) -> Result<(), PlantTextFault>
        ensures { Gives (λ _. true) result
            (closed self.now.section self.now.index (map (λ key. key.now) keys.now) (view self.now.value.now)) }
    {
        if has_only(keys, self.value) {
            Ok(())
        } else {
            Err(self.misshapen(Key::Entry))
        }
    }
}

fn has_only(keys: &[&str], entry: &Value) -> bool
    ensures { result ≡ has_only (map (λ key. key.now) keys.now) (view entry.now) }
{
    match entry.as_object() {
        Some(members) => is_keyed_by(keys, members),
        None => true,
    }
}

fn is_keyed_by(keys: &[&str], members: &Map<String, Value>) -> bool
    ensures { result ≡ keyed_by (map (λ key. key.now) keys.now) (members_view members.now.entries) }
{
    has_all(keys, members)
}

fn has_all(keys: &[&str], members: &Map<String, Value>) -> bool
    ensures { result
        ≡ list_all (λ name. list_any (bytes_eq (string_bytes name)) (map (λ key. key.now) keys.now))
        (tree.keys members.now) }
{
    members.keys().all(|name| is_among(keys, name.as_str()))
}

fn is_among(keys: &[&str], name: &str) -> bool
    ensures { result ≡ list_any (bytes_eq name.now) (map (λ key. key.now) keys.now) }
{
    for key in keys {
        if name == *key {
            return true;
        }
    }
    false
}
