// The store of a specification: nodes, kept once each, and items.
ghost use Rattle.std.specs.Prelude.{◌≡◌, ℕ, [], ◌<◌, ◌≤◌, length, slice_get, Some, OnOk, OnErr, IfOk};
ghost use Rattle.std.specs.List.{AllByRecursion};
ghost use Rattle.stream_core.specs.Value.{SpecValue};
ghost use Rattle.stream_core.specs.Parts.{parts, IsNodeList};
ghost use Rattle.stream_core.specs.Stored.{IsPlaced, HasRoom, with_item};
ghost use Rattle.stream_core.specs.Ordered.{Ordered, all_parts, DefsThere};
ghost use Rattle.stream_core.specs.Term.{build, def, tree, closed, closed_def};
ghost use Rattle.stream_core.specs.Acyclic.{WellFounded};

use crate::node::{LibForm, Node, NodeId};
use indexmap::IndexSet;
use sm_io::{Name, Seq};
use std::alloc::{AllocError, Global};
use std::marker::Model;
use stream_types::{Ty, Types};

/// An expression where a declaration uses it: its node, its type and its place in the text.
#[derive(Drop)]
pub struct Root {
    pub expr: NodeId,
    pub ty: Ty,
    pub at: u64,
}

/// A sampled variable of the host.
#[derive(Drop)]
pub struct ExternItem {
    pub name: Name,
    pub ty: Ty,
}

/// A stream: the words of its initial values, one value after another, and the expression of each later value.
/// `at` is the place of the expression.
#[derive(Drop)]
pub struct StreamItem {
    pub name: Name,
    pub ty: Ty,
    pub init: Seq<u64>,
    pub expr: NodeId,
    pub at: u64,
}

/// A name for an expression. `at` is the place of the declaration.
#[derive(Drop)]
pub struct DefItem {
    pub name: Name,
    pub ty: Ty,
    pub expr: NodeId,
    pub at: u64,
}

/// A call of a handler, with these arguments, at each step where the guard is true.
#[derive(Drop)]
pub struct TriggerItem {
    pub name: Name,
    pub guard: Root,
    pub args: Seq<Root>,
}

/// A value that is shown at each step.
#[derive(Drop)]
pub struct ObserverItem {
    pub name: Name,
    pub root: Root,
}

/// A library form over its operands. `at` is its place.
#[derive(Drop)]
pub struct LibItem {
    pub form: LibForm,
    pub args: Seq<NodeId>,
    pub at: u64,
}

/// What is added to a specification.
#[derive(Drop)]
pub enum Item {
    Extern(ExternItem),
    Stream(StreamItem),
    Def(DefItem),
    Trigger(TriggerItem),
    Observer(ObserverItem),
    Lib(LibItem),
}

/// A typed specification: its type list, the items of each kind in text order, and the nodes of its expressions.
/// No two nodes are equal, and parts have smaller numbers than the node that uses them.
#[derive(Drop)]
pub struct Spec {
    name: Name,
    types: Types,
    nodes: IndexSet<Node>,
    externs: Vec<ExternItem>,
    streams: Vec<StreamItem>,
    defs: Vec<DefItem>,
    triggers: Vec<TriggerItem>,
    observers: Vec<ObserverItem>,
    libs: Vec<LibItem>,
}

impl Model for Spec {
    ghost use Rattle.stream_core.specs.Value.{SpecValue};
    ghost use Rattle.stream_core.specs.Parts.{IsNodeList};

    ghost Value = { SpecValue };

    ghost view = { λ s. record { name = s.name; types = s.types; nodes = s.nodes.keys; externs = s.externs.items; streams = s.streams.items; defs = s.defs.items; triggers = s.triggers.items; observers = s.observers.items; libs = s.libs.items } };

    ghost invariant = { λ s. IsNodeList s.nodes.keys };
}

impl Spec {
    /// A specification without nodes and items.
    pub fn new(alloc: Global, name: Name, types: Types) -> Spec
        ensures { result ≡ record { name = name; types = types; nodes = []; externs = []; streams = []; defs = []; triggers = []; observers = []; libs = [] } }
    {
        Spec {
            name,
            types,
            nodes: IndexSet::new(alloc),
            externs: Vec::new(alloc),
            streams: Vec::new(alloc),
            defs: Vec::new(alloc),
            triggers: Vec::new(alloc),
            observers: Vec::new(alloc),
            libs: Vec::new(alloc),
        }
    }

    /// The number of a node: that of an equal node, or else a new one, after all others. After a refusal the
    /// specification is as before.
    pub fn place(&mut self, node: Node) -> Result<NodeId, AllocError>
        requires { AllByRecursion (λ j. j < length self.old.nodes) (parts node) }
        ensures once { IfOk result (λ id. IsPlaced self.old self.new node id) }
        ensures placed { IfOk result (λ id. slice_get self.new.nodes id ≡ Some node) }
        ensures within { IfOk result (λ id. id < length self.new.nodes) }
        ensures kept { OnOk result ((i : ℕ) (n : Node) → slice_get self.old.nodes i ≡ Some n → slice_get self.new.nodes i ≡ Some n) }
        ensures grows { length self.old.nodes ≤ length self.new.nodes }
        ensures others { self.new ≡ record self.old { nodes = self.new.nodes } }
        ensures list { IsNodeList self.new.nodes }
        ensures err { OnErr result (self.new ≡ self.old) }
    {
        let (at, _) = self.nodes.insert_full(node)?;
        Ok(NodeId(at))
    }

    /// Adds an item as the last of its kind. After a refusal the specification is as before.
    pub fn add(&mut self, item: Item) -> Result<(), AllocError>
        requires { HasRoom self.old item }
        ensures ok { OnOk result (self.new ≡ with_item self.old item) }
        ensures err { OnErr result (self.new ≡ self.old) }
    {
        match item {
            Item::Extern(x) => self.externs.push(x)?,
            Item::Stream(x) => self.streams.push(x)?,
            Item::Def(x) => self.defs.push(x)?,
            Item::Trigger(x) => self.triggers.push(x)?,
            Item::Observer(x) => self.observers.push(x)?,
            Item::Lib(x) => self.libs.push(x)?,
        }
        Ok(())
    }

    /// Its name.
    pub fn name(&self) -> &Name
        ensures { result.now ≡ self.now.name }
    {
        &self.name
    }

    /// The list of its arrays and structs.
    pub fn types(&self) -> &Types
        ensures { result.now ≡ self.now.types }
    {
        &self.types
    }

    /// The externs, in text order, as the items of each kind below.
    pub fn externs(&self) -> &[ExternItem]
        ensures { result.now ≡ self.now.externs }
    {
        self.externs.as_slice()
    }

    /// The streams.
    pub fn streams(&self) -> &[StreamItem]
        ensures { result.now ≡ self.now.streams }
    {
        self.streams.as_slice()
    }

    /// The defs.
    pub fn defs(&self) -> &[DefItem]
        ensures { result.now ≡ self.now.defs }
    {
        self.defs.as_slice()
    }

    /// The triggers.
    pub fn triggers(&self) -> &[TriggerItem]
        ensures { result.now ≡ self.now.triggers }
    {
        self.triggers.as_slice()
    }

    /// The observers.
    pub fn observers(&self) -> &[ObserverItem]
        ensures { result.now ≡ self.now.observers }
    {
        self.observers.as_slice()
    }

    /// The library forms.
    pub fn libs(&self) -> &[LibItem]
        ensures { result.now ≡ self.now.libs }
    {
        self.libs.as_slice()
    }

    /// How many nodes there are.
    pub fn nodes(&self) -> usize
        ensures value { result ≡ length self.now.nodes }
        ensures list { IsNodeList self.now.nodes }
    {
        self.nodes.len()
    }

    // The node as it is stored.
    fn stored(&self, id: NodeId) -> &Node
        requires { id < length self.now.nodes }
        ensures { slice_get self.now.nodes id ≡ Some result.now }
    {
        &self.nodes.as_slice()[id.0]
    }

    /// The node of this number.
    ///
    /// `tree` and `parts` say how its tree is made of its parts' trees, where operands of library forms have
    /// smaller numbers; `closed`, `below` and `defs` say the same of its tree with the defs written out, where no
    /// def leads back to itself.
    pub fn node(&self, id: NodeId) -> &Node
        requires { id < length self.now.nodes }
        ensures node { slice_get self.now.nodes id ≡ Some result.now }
        ensures tree { Ordered self.now.nodes self.now.libs → tree self.now.nodes self.now.libs id ≡ build self.now.libs def (tree self.now.nodes self.now.libs) result.now }
        ensures parts { Ordered self.now.nodes self.now.libs → AllByRecursion (λ j. j < id) (all_parts self.now.libs result.now) }
        ensures closed { WellFounded self.now → closed self.now id ≡ build self.now.libs (closed_def self.now) (closed self.now) result.now }
        ensures below { WellFounded self.now → AllByRecursion (λ j. j < id) (all_parts self.now.libs result.now) }
        ensures defs { WellFounded self.now → DefsThere self.now.defs result.now }
    {
        self.stored(id)
    }
}
