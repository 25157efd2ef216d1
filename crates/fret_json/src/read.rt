// A requirement file from its bytes.
ghost use Rattle.std.specs.Prelude.{◌≡◌, true, option_map, Ok, IfOk, IfErr};
ghost use Rattle.sm_io.specs.Words.{is_name};
ghost use Rattle.serde_json.specs.View.{view, items_view};
ghost use Rattle.fret_json.specs.Requirements.{string_at, variable_of, requirement_of, entries, GivesFile, Requires, GivesEntries};
ghost use Rattle.fret_json.specs.declared.fault.ReqFault.TheVariants.{BadVariableEntry, BadRequirementEntry};

use crate::fault::ReqFault;
use crate::file::{Req, ReqFile, ReqVar};
use serde_json::Value;
use sm_io::{Name, Seq, Text, is_name};
use std::alloc::{AllocError, Global};

// The string at a key.
fn string_at<'a>(value: &'a Value, key: &str) -> Option<&'a str>
    ensures { option_map (λ s. s.now) result ≡ string_at key.now (view value.now) }
{
    value.get(key).and_then(Value::as_str)
}

fn text_of(alloc: Global, text: &str) -> Result<Text, AllocError>
    ensures { IfOk result (λ x. x ≡ text.now) }
{
    Ok(Text::new(Vec::from_slice(alloc, text.as_bytes())?))
}

fn name_of(alloc: Global, text: &str) -> Result<Name, AllocError>
    requires { is_name text.now ≡ true }
    ensures { IfOk result (λ x. x ≡ text.now) }
{
    Ok(Name::new(Vec::from_slice(alloc, text.as_bytes())?))
}

// The variable that an entry is, if it is one.
fn variable(alloc: Global, entry: &Value) -> Result<Option<ReqVar>, AllocError>
    ensures { IfOk result (λ x. x ≡ variable_of (view entry.now)) }
{
    let Some(name) = string_at(entry, "name") else {
        return Ok(None);
    };
    let Some(ty) = string_at(entry, "type") else {
        return Ok(None);
    };
    let name = text_of(alloc, name)?;
    let ty = text_of(alloc, ty)?;
    Ok(Some(ReqVar { name, ty }))
}

// The requirement that an entry is, if it is one.
fn requirement(alloc: Global, entry: &Value) -> Result<Option<Req>, AllocError>
    ensures { IfOk result (λ x. x ≡ requirement_of (view entry.now)) }
{
    let Some(name) = string_at(entry, "name") else {
        return Ok(None);
    };
    let Some(formula) = string_at(entry, "formula") else {
        return Ok(None);
    };
    let name = text_of(alloc, name)?;
    let formula = text_of(alloc, formula)?;
    Ok(Some(Req { name, formula }))
}

// The variables of a list of entries, or the number of the first that is none.
fn variables(alloc: Global, list: &[Value]) -> Result<Vec<ReqVar>, ReqFault>
    ensures ok { IfOk result (λ v. entries variable_of 1 (items_view list.now) ≡ Ok v.items) }
    ensures err { IfErr result (GivesEntries BadVariableEntry (entries variable_of 1 (items_view list.now))) }
{
    let mut found = Vec::new(alloc);
    for i in 0..list.len() {
        match variable(alloc, &list[i])? {
            Some(x) => found.push(x)?,
            None => return Err(ReqFault::BadVariableEntry(i as u64 + 1)),
        }
    }
    Ok(found)
}

// The requirements of a list of entries, or the number of the first that is none.
fn all_requirements(alloc: Global, list: &[Value]) -> Result<Vec<Req>, ReqFault>
    ensures ok { IfOk result (λ v. entries requirement_of 1 (items_view list.now) ≡ Ok v.items) }
    ensures err { IfErr result (GivesEntries BadRequirementEntry (entries requirement_of 1 (items_view list.now))) }
{
    let mut found = Vec::new(alloc);
    for i in 0..list.len() {
        match requirement(alloc, &list[i])? {
            Some(x) => found.push(x)?,
            None => return Err(ReqFault::BadRequirementEntry(i as u64 + 1)),
        }
    }
    Ok(found)
}

// The file that a value holds.
fn file_of(alloc: Global, value: &Value) -> Result<ReqFile, ReqFault>
    ensures { GivesFile (view value.now) result }
{
    let Some(component) = value.get("component") else {
        return Err(ReqFault::NoComponent);
    };
    let Some(name) = string_at(component, "name") else {
        return Err(ReqFault::NoComponent);
    };
    if !is_name(name.as_bytes()) {
        return Err(ReqFault::NoComponent);
    }
    let Some(variable_list) = component.get("variables").and_then(Value::as_array) else {
        return Err(ReqFault::NoComponent);
    };
    let Some(list) = component.get("requirements").and_then(Value::as_array) else {
        return Err(ReqFault::NoComponent);
    };
    let found = variables(alloc, variable_list.as_slice())?;
    let wanted = all_requirements(alloc, list.as_slice())?;
    let name = name_of(alloc, name)?;
    Ok(ReqFile {
        name,
        variables: Seq::of(found),
        requirements: Seq::of(wanted),
    })
}

/// The requirement file that these bytes are, or the first fault: no value of JSON, no component, the first variable or
/// else the first requirement that is no entry.
pub fn requirements(alloc: Global, bytes: &[u8]) -> Result<ReqFile, ReqFault>
    ensures { Requires bytes.now result }
{
    let value = match Value::from_slice(alloc, bytes) {
        Ok(value) => value,
        Err(e) if e.is_memory() => return Err(ReqFault::Memory),
        Err(_) => return Err(ReqFault::NotJson),
    };
    file_of(alloc, &value)
}
