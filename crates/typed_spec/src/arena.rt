// Nodes and library forms, placed one after another.
ghost use Rattle.std.specs.Prelude.{◌≡◌, ◌<◌, ◌≤◌, [], ◌∷◌, ◌++◌, length, IfOk, OnOk};
ghost use Rattle.std.specs.List.{AllByRecursion};
ghost use Rattle.stream_core.specs.declared.node.LibForm.TheVariants as form;
ghost use Rattle.stream_core.specs.Parts.{parts};
ghost use Rattle.typed_spec.specs.Made.{Fills, Puts};

use sm_io::Seq;
use std::alloc::{AllocError, Global};
use stream_core::{LibForm, LibItem, Node, NodeId, Spec};
use type_check::known::Known;

/// The node of an expression, and its type if it has one.
#[derive(Clone, Copy)]
pub struct Operand {
    pub id: NodeId,
    pub ty: Option<Known>,
}

/// A specification without its library forms, and these forms in text order.
#[derive(Drop)]
pub struct Arena {
    pub spec: Spec,
    pub forms: Vec<LibItem>,
}

/// A number of parts of a text, which has fewer than 4,294,967,296.
pub fn short(n: usize) -> u32
    ensures { n < 4294967296 → result ≡ n }
{
    match u32::try_from(n) {
        Ok(n) => n,
        Err(_) => u32::MAX,
    }
}

impl Arena {
    /// The number of a node over parts that are there.
    pub fn put(&mut self, node: Node) -> Result<NodeId, AllocError>
        requires { AllByRecursion (λ j. j < length self.old.spec.nodes) (parts node) }
        ensures puts { IfOk result (λ id. Puts self.old self.new node id) }
        ensures within { IfOk result (λ id. id < length self.new.spec.nodes) }
        ensures size { length self.old.spec.nodes ≤ length self.new.spec.nodes }
        ensures others { self.new.spec ≡ record self.old.spec { nodes = self.new.spec.nodes } }
        ensures forms { self.new.forms ≡ self.old.forms }
    {
        self.spec.place(node)
    }

    /// The number of the next library form, whose operands come behind it. Until they are known, a form without
    /// operands stands in its place.
    pub fn reserve(&mut self, alloc: Global, at: u64) -> Result<usize, AllocError>
        ensures number { IfOk result (λ number. number ≡ length self.old.forms.items) }
        ensures spec { self.new.spec ≡ self.old.spec }
        ensures forms { OnOk result (self.new.forms.items ≡ self.old.forms.items ++ record { form = form.Once; args = []; at = at } ∷ []) }
        ensures within { IfOk result (λ number. number < length self.new.forms.items) }
        ensures size { length self.old.forms.items ≤ length self.new.forms.items }
    {
        let number = self.forms.len();
        self.forms.push(LibItem {
            form: LibForm::Once,
            args: Seq::new(alloc),
            at,
        })?;
        Ok(number)
    }

    /// The node of a library form, whose operands are there.
    pub fn fill(&mut self, number: usize, item: LibItem) -> Result<NodeId, AllocError>
        requires { number < length self.old.forms.items }
        ensures fills { IfOk result (λ id. Fills self.old self.new number item id) }
        ensures within { IfOk result (λ id. id < length self.new.spec.nodes) }
        ensures size { length self.old.spec.nodes ≤ length self.new.spec.nodes }
        ensures others { self.new.spec ≡ record self.old.spec { nodes = self.new.spec.nodes } }
        ensures forms { length self.new.forms.items ≡ length self.old.forms.items }
    {
        self.forms[number] = item;
        self.put(Node::Lib(short(number)))
    }
}
