// What the names of a text stand for.
ghost use Rattle.std.specs.Prelude.{◌≡◌, ℕ, List, [], ◌∷◌, Some, if◌then◌else◌, IfOk, IfErr, OnOk, bytes_eq, nat_lt};
ghost use Rattle.spec_text.specs.declared.surface.Decl.{Decl};
ghost use Rattle.std.specs.Map.{lookup};
ghost use Rattle.type_check.specs.declared.order.Order.{Order as OrderValue};
ghost use Rattle.type_check.specs.NamedType.{Declarations};
ghost use Rattle.type_check.specs.Judged.{Verdict, Judged, Named, declared, named_in, judged, judge_form};
ghost use Rattle.type_check.specs.Untyped.{reversed};
ghost use Rattle.type_check.specs.Table.{struct_names, IsTable, HasItems};
ghost use Rattle.type_check.specs.Standing.{IsDistinct, IsItem, kind_of, IsVerdict, AreFirst, AreTypedParts, Gives, GivesType, struct_words_at};

use crate::fault::TypeFault;
use crate::known::Known;
use crate::order::Order;
use crate::structs::{MOST_WORDS, Structs};
use indexmap::IndexMap;
use sm_io::{Name, Seq};
use spec_text::{Decl, NameAt, TypeForm};
use std::alloc::Global;

/// What an item keeps: a stream as many values as it begins with, an extern and a def none.
#[derive(Clone, Copy)]
pub enum Kind {
    Unkept,
    Kept(usize),
}

/// An item that a name in an expression may stand for, with its written type if that is one.
#[derive(Clone, Copy)]
pub struct Item {
    pub kind: Kind,
    pub ty: Option<Known>,
}

/// The structs and items of a text, and how many structs have ended.
#[derive(Drop)]
pub struct Scope {
    pub alloc: Global,
    pub structs: Structs,
    pub items: IndexMap<Name, Item>,
    pub closed: usize,
}

impl Scope {
    /// No names.
    fn new(alloc: Global) -> Scope
        ensures numbers { result.structs.numbers.entries ≡ [] }
        ensures all { result.structs.all.items ≡ [] }
        ensures items { result.items.entries ≡ [] }
        ensures closed { result.closed ≡ 0 }
    {
        Scope {
            alloc,
            structs: Structs {
                numbers: IndexMap::new(alloc),
                all: Vec::new(alloc),
            },
            items: IndexMap::new(alloc),
            closed: 0,
        }
    }

    // Takes in an item, behind all structs so far.
    fn item(&mut self, name: &NameAt, ty: &TypeForm, kind: Kind) -> Result<(), TypeFault>
        ensures items { (names : List (List ℕ)) (ds : Declarations) (n : Named) → IsTable names ds self.old.structs → kind ≡ kind_of n
            → (declared n).ty ≡ (judge_form ds ty.now).ty → HasItems names ds self.old.items.entries
            → OnOk result ((x : List ℕ) → IsItem names (if bytes_eq name.now.name x then Some n else named_in ds x) (lookup (bytes_eq x) self.new.items.entries)) }
        ensures structs { self.new.structs ≡ self.old.structs }
        ensures closed { self.new.closed ≡ self.old.closed }
        ensures err { IfErr result (λ e. e ≡ TypeFault.Memory) }
    {
        let ty = self.structs.latest(ty);
        self.items
            .insert(name.name.copy(self.alloc)?, Item { kind, ty })?;
        Ok(())
    }

    // Takes in what a declaration declares.
    fn declare(&mut self, decl: &Decl) -> Result<(), TypeFault>
        ensures ok { (names : List (List ℕ)) (ds : Declarations) (rest : List Decl) → names ≡ struct_names (reversed ds (decl.now ∷ rest))
            → IsTable names ds self.old.structs → HasItems names ds self.old.items.entries
            → OnOk result (IsTable names (decl.now ∷ ds) self.new.structs × HasItems names (decl.now ∷ ds) self.new.items.entries) }
        ensures closed { self.new.closed ≡ self.old.closed }
        ensures err { IfErr result (λ e. e ≡ TypeFault.Memory) }
    {
        match decl {
            Decl::Struct { name, fields, .. } => {
                self.structs.declare(self.alloc, name, fields.as_slice())
            }
            Decl::Extern { name, ty, .. } => self.item(name, ty, Kind::Unkept),
            Decl::Stream { name, ty, init, .. } => {
                self.item(name, ty, Kind::Kept(init.as_slice().len()))
            }
            Decl::Def { name, ty, .. } => self.item(name, ty, Kind::Unkept),
            Decl::Trigger { .. } => Ok(()),
            Decl::Observer { .. } => Ok(()),
        }
    }

    /// The names of a text, before its first declaration.
    pub fn of(alloc: Global, decls: &[Decl]) -> Result<Scope, TypeFault>
        ensures ok { (names : List (List ℕ)) → names ≡ struct_names (reversed [] decls.now)
            → IfOk result (λ s. IsTable names (reversed [] decls.now) s.structs × HasItems names (reversed [] decls.now) s.items.entries × (s.closed ≡ 0)) }
        ensures err { IfErr result (λ e. e ≡ TypeFault.Memory) }
    {
        let mut scope = Scope::new(alloc);
        for decl in decls {
            scope.declare(decl)?;
        }
        Ok(scope)
    }

    /// The item of a name.
    pub fn find(&self, name: &Name) -> Option<Item>
        ensures { result ≡ lookup (bytes_eq name.now) self.now.items.entries }
    {
        self.items.get(name).copied()
    }

    /// Whether a struct, by its number, has more than 1,024 words.
    pub fn is_too_wide(&self, number: usize) -> bool
        ensures { result ≡ nat_lt 1024 (struct_words_at self.now.structs.all.items number) }
    {
        self.structs.words_of(number) > MOST_WORDS
    }

    /// A node of a type, or why it has none.
    pub fn node(
        &self,
        order: &mut Order,
        ty: Result<Known, TypeFault>,
    ) -> Result<Option<Known>, TypeFault>
        ensures { (names : List (List ℕ)) (start : OrderValue) (ps : List Judged) (v : Verdict) → IsDistinct names
            → AreTypedParts names self.now.closed start order.old ps → IsVerdict names v ty
            → Gives names self.now.closed start order.new (judged ps v) result }
    {
        let ty = ty?;
        order.meet(self.closed, ty)?;
        Ok(Some(ty))
    }

    /// A written type as a node.
    pub fn written(&self, order: &mut Order, ty: &TypeForm) -> Result<Known, TypeFault>
        ensures { (names : List (List ℕ)) (before : Declarations) → IsDistinct names
            → AreFirst names before self.now.structs self.now.closed
            → GivesType names self.now.closed order.old order.new (judge_form before ty.now) result }
    {
        let ty = self.structs.form(self.closed, ty)?;
        order.meet(self.closed, ty)?;
        Ok(ty)
    }
}
