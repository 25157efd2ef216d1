// What is true of every text.
ghost use Rattle.std.specs.Prelude.{◌≡◌, ℕ, ◌≤◌, List, length, None};
ghost use Rattle.std.specs.List.Sorted.{IsStrictlyIncreasing};
ghost use Rattle.spec_forest.specs.declared.tree.Forest.{Forest};
ghost use Rattle.spec_forest.specs.Node.{Nodes, forest_nodes};
ghost use Rattle.spec_forest.specs.Places.{places};
ghost use Rattle.spec_forest.specs.Scan.{scan_fault};
ghost use Rattle.spec_forest.specs.Tokens.{tokens, IsForestOf};
ghost use Rattle.spec_forest.specs.Extents.{nesting, list_count, item_count};
ghost use Rattle.spec_forest.specs.Pieces.{Piece, pieces_text, AreParted, StaysWithin, piece_tokens, SameShape, LaysOut};
ghost use Rattle.spec_forest.specs.Layout.{IsWord, HasWords, page_text, page_nodes};

/// A text has at most one forest.
pub fn text_has_one_forest()
    ensures { (text : List ℕ) (f g : Nodes) → IsForestOf text f → IsForestOf text g → f ≡ g }
{}

/// A text without a fault has a forest.
pub fn sound_text_has_forest()
    ensures { (text : List ℕ) → scan_fault text ≡ None → (forest : Forest) × IsForestOf text (forest_nodes forest) }
{}

/// The places of a text's forest ascend in preorder: a node stands before its items, and before what follows it.
pub fn places_ascend()
    ensures { (text : List ℕ) (f : Nodes) → IsForestOf text f → IsStrictlyIncreasing (places f) }
{}

/// A text made of brackets, words and gaps, with a gap or a bracket between two words, has those pieces at their
/// offsets as its atoms and brackets, and no fault where its brackets match and nest at most 64 lists.
pub fn pieces_are_read()
    ensures tokens { (ps : List Piece) → AreParted ps → tokens (pieces_text ps) ≡ piece_tokens 0 ps }
    ensures sound { (ps : List Piece) → AreParted ps → StaysWithin 0 ps → length (pieces_text ps) ≤ 1048576 → scan_fault (pieces_text ps) ≡ None }
{}

/// A forest that is laid out in pieces is read back as the same forest, but for places.
pub fn layouts_are_read()
    ensures sound { (ps : List Piece) (f : Nodes) → AreParted ps → LaysOut ps f → nesting f ≤ 64 → length (pieces_text ps) ≤ 1048576
        → scan_fault (pieces_text ps) ≡ None }
    ensures some { (ps : List Piece) (f : Nodes) → AreParted ps → LaysOut ps f → nesting f ≤ 64 → length (pieces_text ps) ≤ 1048576
        → (g : Nodes) × IsForestOf (pieces_text ps) g }
    ensures each { (ps : List Piece) (f g : Nodes) → AreParted ps → LaysOut ps f → nesting f ≤ 64 → length (pieces_text ps) ≤ 1048576
        → IsForestOf (pieces_text ps) g → SameShape g f }
{}

/// A list that begins with two words, with each further item on a line of its own and single spaces within the
/// lines, is read back as that list, but for places.
pub fn pages_are_read()
    ensures sound { (head name : List ℕ) (items : Nodes) → IsWord head → IsWord name → HasWords items
        → nesting (page_nodes head name items) ≤ 64 → length (page_text head name items) ≤ 1048576
        → scan_fault (page_text head name items) ≡ None }
    ensures some { (head name : List ℕ) (items : Nodes) → IsWord head → IsWord name → HasWords items
        → nesting (page_nodes head name items) ≤ 64 → length (page_text head name items) ≤ 1048576
        → (g : Nodes) × IsForestOf (page_text head name items) g }
    ensures each { (head name : List ℕ) (items g : Nodes) → IsWord head → IsWord name → HasWords items
        → nesting (page_nodes head name items) ≤ 64 → length (page_text head name items) ≤ 1048576
        → IsForestOf (page_text head name items) g → SameShape g (page_nodes head name items) }
{}

/// Forests that are equal but for places have one nesting, and as many lists and items.
pub fn shapes_have_one_size()
    ensures nesting { (f g : Nodes) → SameShape f g → nesting f ≡ nesting g }
    ensures lists { (f g : Nodes) → SameShape f g → list_count f ≡ list_count g }
    ensures items { (f g : Nodes) → SameShape f g → item_count f ≡ item_count g }
{}
