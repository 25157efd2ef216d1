// What the names and types of a text stand for.
ghost use Rattle.std.specs.Prelude.{◌≡◌, ◌≤◌, ◌<◌, ◌+◌, ℕ, List, [], ◌∷◌, ◌++◌, length, IfOk, OnOk};
ghost use Rattle.spec_text.specs.declared.surface.Decl.{Decl};
ghost use Rattle.stream_core.specs.Parts.{parts};
ghost use Rattle.type_check.specs.Judged.{Scope as Names, Judged, judge_form};
ghost use Rattle.type_check.specs.Standing.{MeansOption};
ghost use Rattle.typed_text.specs.ReadSpec.{Numbers as Order, ty_in, extern_names, stream_names, def_names};
ghost use Rattle.typed_spec.specs.Texts.{AreNumbered, StandsFor, name_node};

use crate::table::Table;
use sm_io::Name;
use spec_text::{Decl, TypeForm};
use std::alloc::{AllocError, Global};
use stream_core::Node;
use stream_types::Ty;
use type_check::known::{BOOL, Known};
use type_check::list::Numbers;
use type_check::scope::Scope;

/// The names of a text's structs and items, its types by their numbers in the type list, and its externs, streams and
/// defs by their numbers.
#[derive(Drop)]
pub struct Text {
    pub scope: Scope,
    pub types: Numbers,
    pub externs: Table,
    pub streams: Table,
    pub defs: Table,
}

impl Text {
    // Takes in the name of an extern, a stream or a def.
    fn declare(&mut self, alloc: Global, decl: &Decl) -> Result<(), AllocError>
        requires externs { self.old.externs.count < 4294967295 }
        requires streams { self.old.streams.count < 4294967295 }
        requires defs { self.old.defs.count < 4294967295 }
        ensures externs { (all : List (List ℕ)) → AreNumbered all self.old.externs
            → OnOk result (AreNumbered (all ++ extern_names (decl.now ∷ [])) self.new.externs) }
        ensures streams { (all : List (List ℕ)) → AreNumbered all self.old.streams
            → OnOk result (AreNumbered (all ++ stream_names (decl.now ∷ [])) self.new.streams) }
        ensures defs { (all : List (List ℕ)) → AreNumbered all self.old.defs → OnOk result (AreNumbered (all ++ def_names (decl.now ∷ [])) self.new.defs) }
        ensures extern_count { OnOk result (self.new.externs.count ≤ self.old.externs.count + 1) }
        ensures stream_count { OnOk result (self.new.streams.count ≤ self.old.streams.count + 1) }
        ensures def_count { OnOk result (self.new.defs.count ≤ self.old.defs.count + 1) }
        ensures scope { self.new.scope ≡ self.old.scope }
        ensures types { self.new.types ≡ self.old.types }
    {
        match decl {
            Decl::Extern { name, .. } => self.externs.add(alloc, &name.name),
            Decl::Stream { name, .. } => self.streams.add(alloc, &name.name),
            Decl::Def { name, .. } => self.defs.add(alloc, &name.name),
            Decl::Struct { .. } | Decl::Trigger { .. } | Decl::Observer { .. } => Ok(()),
        }
    }

    /// The names of a text, before its first declaration.
    pub fn of(
        alloc: Global,
        scope: Scope,
        types: Numbers,
        decls: &[Decl],
    ) -> Result<Text, AllocError>
        requires few { length decls.now ≤ 524288 }
        ensures scope { IfOk result (λ text. text.scope ≡ scope) }
        ensures types { IfOk result (λ text. text.types ≡ types) }
        ensures externs { IfOk result (λ text. AreNumbered (extern_names decls.now) text.externs) }
        ensures streams { IfOk result (λ text. AreNumbered (stream_names decls.now) text.streams) }
        ensures defs { IfOk result (λ text. AreNumbered (def_names decls.now) text.defs) }
    {
        let mut text = Text {
            scope,
            types,
            externs: Table::new(alloc),
            streams: Table::new(alloc),
            defs: Table::new(alloc),
        };
        for decl in decls {
            text.declare(alloc, decl)?;
        }
        Ok(text)
    }

    /// The node of a name.
    pub fn named(&self, name: &Name) -> Node
        ensures node { (names : List (List ℕ)) (s : Names) (n : Order) → StandsFor names s n self.now → result ≡ name_node n name.now }
        ensures leaf { parts result ≡ [] }
    {
        if self.externs.has(name) {
            return Node::Extern(self.externs.number(name));
        }
        if self.streams.has(name) {
            return Node::Stream(self.streams.number(name));
        }
        Node::Def(self.defs.number(name))
    }

    /// A type as the type list numbers it. A missing one counts as Bool.
    pub fn ty(&self, ty: Option<Known>) -> Ty
        ensures { (names : List (List ℕ)) (s : Names) (n : Order) (j : Judged) → StandsFor names s n self.now → MeansOption names ty j.ty → result ≡ ty_in n j }
    {
        self.types.ty(ty.unwrap_or(BOOL))
    }

    /// A written type behind the structs that have ended, if it is one.
    pub fn written(&self, ty: &TypeForm) -> Option<Known>
        ensures { (names : List (List ℕ)) (s : Names) (n : Order) → StandsFor names s n self.now → MeansOption names result (judge_form s.before ty.now).ty }
    {
        match self.scope.structs.form(self.scope.closed, ty) {
            Ok(ty) => Some(ty),
            Err(_) => None,
        }
    }
}
