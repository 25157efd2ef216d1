// The order of a text's types: structs where they end, arrays where they are met first.
ghost use Rattle.std.specs.Prelude.{◌≡◌, ℕ, List, [], ◌∷◌, ◌++◌, map, nat_eq, if◌then◌else◌, slice_get, Some, OnOk, IfErr};
ghost use Rattle.type_check.specs.declared.known.Known.TheVariants as the_known;
ghost use Rattle.type_check.specs.NamedType.{NamedType};
ghost use Rattle.type_check.specs.Standing.{Means, IsDistinct, Grows, Ends, waiting_at, waiting_for};

use crate::fault::TypeFault;
use crate::known::{Element, Known};
use indexmap::{IndexMap, IndexSet};
use sm_io::Seq;
use std::alloc::Global;

/// The structs and arrays in the order of the type list, as far as the text was walked.
#[derive(Drop)]
pub struct Order {
    pub alloc: Global,
    /// The arrays that were met.
    pub met: IndexSet<Known>,
    /// Each type in its place.
    pub placed: Seq<Known>,
    /// The lengths of the arrays of a struct that were met before its end, by its number.
    pub waiting: IndexMap<usize, Seq<usize>>,
}

// The number of the struct for which an array of such elements waits, where so many structs have ended.
fn waits_for(closed: usize, elem: Element) -> Option<usize>
    ensures { result ≡ waiting_for closed elem }
{
    match elem {
        Element::Scalar(_) => None,
        Element::Struct(number) => { if closed <= number { Some(number) } else { None } }
    }
}

// Places the arrays of these lengths at the end.
fn place(placed: &mut Seq<Known>, elem: Element, lengths: &[usize]) -> Result<(), TypeFault>
    ensures ok { OnOk result (placed.new ≡ placed.old ++ map (λ (n : ℕ). the_known.Array elem n) lengths.now) }
    ensures err { IfErr result (λ e. e ≡ TypeFault.Memory) }
{
    for n in lengths {
        placed.push(Known::Array(elem, *n))?;
    }
    Ok(())
}

impl Order {
    /// No types.
    pub fn new(alloc: Global) -> Order
        ensures met { result.met.keys ≡ [] }
        ensures placed { result.placed ≡ [] }
        ensures waiting { result.waiting.entries ≡ [] }
    {
        Order {
            alloc,
            met: IndexSet::new(alloc),
            placed: Seq::new(alloc),
            waiting: IndexMap::new(alloc),
        }
    }

    // Lets an array of a struct wait for its end.
    fn wait(&mut self, number: usize, n: usize) -> Result<(), TypeFault>
        ensures waits { (i : ℕ) → OnOk result (waiting_at self.new i ≡ waiting_at self.old i ++ (if nat_eq number i then n ∷ [] else [])) }
        ensures met { self.new.met ≡ self.old.met }
        ensures placed { self.new.placed ≡ self.old.placed }
        ensures err { IfErr result (λ e. e ≡ TypeFault.Memory) }
    {
        let mut lengths = match self.waiting.swap_remove(&number) {
            Some(lengths) => lengths,
            None => Seq::new(self.alloc),
        };
        lengths.push(n)?;
        self.waiting.insert(number, lengths)?;
        Ok(())
    }

    /// Comes upon a type, where so many structs have ended.
    pub fn meet(&mut self, closed: usize, ty: Known) -> Result<(), TypeFault>
        ensures grows { (names : List (List ℕ)) (t : NamedType) → IsDistinct names → Means names ty t
            → OnOk result (Grows names closed self.old self.new (t ∷ [])) }
        ensures err { IfErr result (λ e. e ≡ TypeFault.Memory) }
    {
        let Known::Array(elem, n) = ty else {
            return Ok(());
        };
        if !self.met.insert(ty)? {
            return Ok(());
        }
        match waits_for(closed, elem) {
            Some(number) => self.wait(number, n),
            None => {
                self.placed.push(ty)?;
                Ok(())
            }
        }
    }

    /// Comes upon the end of a struct.
    pub fn close(&mut self, number: usize) -> Result<(), TypeFault>
        ensures ends { (names : List (List ℕ)) (x : List ℕ) → IsDistinct names → slice_get names number ≡ Some x
            → OnOk result (Ends names number self.old self.new x) }
        ensures err { IfErr result (λ e. e ≡ TypeFault.Memory) }
    {
        let elem = Element::Struct(number);
        self.placed.push(Known::Element(elem))?;
        match self.waiting.get(&number) {
            Some(lengths) => place(&mut self.placed, elem, lengths.as_slice()),
            None => Ok(()),
        }
    }
}
