// The first name that is declared again.
ghost use Rattle.std.specs.Prelude.{◌≡◌, ℕ, ◌+◌, List, [], ◌∷◌, ◌++◌, map, IfOk, IfErr, IfNone, true, false, not, nat_eq, bytes_eq, ◌&&◌};
ghost use Rattle.std.specs.List.{list_any};
ghost use Rattle.spec_text.specs.declared.surface.FieldForm.{FieldForm};
ghost use Rattle.type_check.specs.Names.{Declared, fields, items, declared_as, names_of, first_redeclared, name_fault};
ghost use Rattle.type_check.specs.Seen.{IsSeen, clashes};

use crate::fault::TypeFault;
use indexmap::{IndexMap, IndexSet};
use sm_io::Name;
use spec_text::{Decl, FieldForm, NameAt, Surface};
use std::alloc::Global;

// Whether a name is none of these yet, and puts it at the end if so.
fn is_new(alloc: Global, names: &mut IndexSet<Name>, x: &NameAt) -> Result<bool, TypeFault>
    ensures new { IfOk result (λ new. new ≡ not (list_any (bytes_eq x.now.name) names.old.keys)) }
    ensures put { IfOk result (λ new. new ≡ true → names.new.keys ≡ names.old.keys ++ x.now.name ∷ []) }
    ensures err { IfErr result (λ e. e ≡ TypeFault.Memory) }
{
    Ok(names.insert(x.name.copy(alloc)?)?)
}

// The place of the first field whose name an earlier field of its struct has. The names are seen in a set that is
// emptied first.
fn twin(
    alloc: Global,
    seen: &mut IndexSet<Name>,
    members: &[FieldForm],
) -> Result<Option<u64>, TypeFault>
    ensures ok { (version i : ℕ)
        → IfOk result (λ at. at ≡ first_redeclared version [] (map (λ (f : FieldForm). declared_as (fields i) f.name false) members.now)) }
    ensures err { IfErr result (λ e. e ≡ TypeFault.Memory) }
{
    seen.clear();
    for field in members {
        if !is_new(alloc, seen, &field.name)? {
            return Ok(Some(field.name.at));
        }
    }
    Ok(None)
}

// Whether an item of this kind lets triggers share its name.
fn is_shared(version: u32, trigger: bool) -> bool
    ensures { result ≡ (nat_eq version 2 && trigger) }
{
    version == 2 && trigger
}

// Whether an item may not have its name, where an earlier item of this name lets triggers share it, or not.
fn clashes(shared: bool, earlier: Option<bool>) -> bool
    ensures { result ≡ clashes shared earlier }
{
    match earlier {
        Some(shares) => !(shared && shares),
        None => false,
    }
}

// The names so far: those of structs, those of the last struct's fields, and those of items, each with whether a
// trigger may have it again.
#[derive(Drop)]
struct SeenNames {
    version: u32,
    structs: IndexSet<Name>,
    fields: IndexSet<Name>,
    items: IndexMap<Name, bool>,
}

impl SeenNames {
    // Takes in the name of an item, and tells its place where an earlier one forbids it.
    fn item(
        &mut self,
        alloc: Global,
        name: &NameAt,
        trigger: bool,
    ) -> Result<Option<u64>, TypeFault>
        ensures ok { (before : List Declared) (i : ℕ) → IsSeen self.old.version before i self.old.structs.keys self.old.items.entries
            → IfOk result (λ at. at ≡ first_redeclared self.old.version before (declared_as items name.now trigger ∷ [])) }
        ensures seen { (before : List Declared) (i : ℕ) → IsSeen self.old.version before i self.old.structs.keys self.old.items.entries
            → IfOk result (λ at. IfNone at (IsSeen self.old.version (before ++ declared_as items name.now trigger ∷ []) i self.new.structs.keys self.new.items.entries)) }
        ensures version { self.new.version ≡ self.old.version }
        ensures err { IfErr result (λ e. e ≡ TypeFault.Memory) }
    {
        let shared = is_shared(self.version, trigger);
        let earlier = self.items.get(&name.name).copied();
        if clashes(shared, earlier) {
            return Ok(Some(name.at));
        }
        self.items.insert(name.name.copy(alloc)?, shared)?;
        Ok(None)
    }

    // Takes in the names of a declaration, and tells the place of the first that an earlier one forbids.
    fn decl(&mut self, alloc: Global, decl: &Decl) -> Result<Option<u64>, TypeFault>
        ensures ok { (before : List Declared) (i : ℕ) → IsSeen self.old.version before i self.old.structs.keys self.old.items.entries
            → IfOk result (λ at. at ≡ first_redeclared self.old.version before (names_of i decl.now)) }
        ensures seen { (before : List Declared) (i : ℕ) → IsSeen self.old.version before i self.old.structs.keys self.old.items.entries
            → IfOk result (λ at. IfNone at (IsSeen self.old.version (before ++ names_of i decl.now) (i + 1) self.new.structs.keys self.new.items.entries)) }
        ensures version { self.new.version ≡ self.old.version }
        ensures err { IfErr result (λ e. e ≡ TypeFault.Memory) }
    {
        match decl {
            Decl::Struct { name, fields, .. } => {
                if !is_new(alloc, &mut self.structs, name)? {
                    return Ok(Some(name.at));
                }
                twin(alloc, &mut self.fields, fields.as_slice())
            }
            Decl::Trigger { name, .. } => self.item(alloc, name, true),
            Decl::Extern { name, .. }
            | Decl::Stream { name, .. }
            | Decl::Def { name, .. }
            | Decl::Observer { name, .. } => self.item(alloc, name, false),
        }
    }
}

/// The place of the first name that an earlier one of its space forbids. The only error is `Memory`.
pub fn name_fault(alloc: Global, surface: &Surface) -> Result<Option<u64>, TypeFault>
    ensures ok { IfOk result (λ at. at ≡ name_fault surface.now) }
    ensures err { IfErr result (λ e. e ≡ TypeFault.Memory) }
{
    let mut seen = SeenNames {
        version: surface.version,
        structs: IndexSet::new(alloc),
        fields: IndexSet::new(alloc),
        items: IndexMap::new(alloc),
    };
    for decl in surface.decls.as_slice() {
        if let Some(at) = seen.decl(alloc, decl)? {
            return Ok(Some(at));
        }
    }
    Ok(None)
}
