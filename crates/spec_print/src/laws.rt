// What holds of every canonical text. The functions are laws, and do nothing.
ghost use Rattle.std.specs.Prelude.{◌≡◌, ◌≤◌, length, None};
ghost use Rattle.spec_forest.specs.Node.{Nodes, forest_nodes};
ghost use Rattle.spec_forest.specs.declared.tree.Forest.{Forest};
ghost use Rattle.spec_forest.specs.Scan.{scan_fault};
ghost use Rattle.spec_forest.specs.Tokens.{IsForestOf};
ghost use Rattle.spec_text.specs.declared.surface.Surface.{Surface};
ghost use Rattle.spec_text.specs.Form.{IsSurfaceOf, form_of};
ghost use Rattle.spec_text.specs.Bare.{bare};
ghost use Rattle.spec_text.specs.Extent.{nesting};
ghost use Rattle.spec_text.specs.KeepsTable.{KeepsTable};
ghost use Rattle.spec_text.specs.Shape.{shape_fault};
ghost use Rattle.spec_text.specs.Canonical.{canonical};
ghost use Rattle.spec_text.specs.WithoutPlaces.{SameButPlaces};

/// The canonical text of a surface that keeps the table, where it nests at most 64 lists and has at most 1,048,576
/// bytes, is read as the same surface but for places: it has no scan fault, its forest has no shape fault, and the
/// surface of the forest that keeps the table is the one that was written, but for places. Any surface of the forest
/// has its form, but for places, and the same text.
pub fn canonical_text_is_read()
    ensures sound { (s : Surface) → KeepsTable s → nesting (form_of s) ≤ 64 → length (canonical s) ≤ 1048576
        → scan_fault (canonical s) ≡ None }
    ensures some { (s : Surface) → KeepsTable s → nesting (form_of s) ≤ 64 → length (canonical s) ≤ 1048576
        → (g : Nodes) × IsForestOf (canonical s) g }
    ensures fits { (s : Surface) → KeepsTable s → nesting (form_of s) ≤ 64 → length (canonical s) ≤ 1048576
        → (forest : Forest) → IsForestOf (canonical s) (forest_nodes forest) → shape_fault forest ≡ None }
    ensures read { (s : Surface) → KeepsTable s → nesting (form_of s) ≤ 64 → length (canonical s) ≤ 1048576
        → (forest : Forest) × (t : Surface) × IsForestOf (canonical s) (forest_nodes forest) × IsSurfaceOf forest t × KeepsTable t
        × SameButPlaces t s }
    ensures same { (s : Surface) → KeepsTable s → nesting (form_of s) ≤ 64 → length (canonical s) ≤ 1048576
        → (forest : Forest) → IsForestOf (canonical s) (forest_nodes forest)
        → (t : Surface) → IsSurfaceOf forest t → KeepsTable t → SameButPlaces t s }
    ensures form { (s : Surface) → KeepsTable s → nesting (form_of s) ≤ 64 → length (canonical s) ≤ 1048576
        → (forest : Forest) → IsForestOf (canonical s) (forest_nodes forest)
        → (t : Surface) → IsSurfaceOf forest t → bare (form_of t) ≡ bare (form_of s) }
    ensures text { (s : Surface) → KeepsTable s → nesting (form_of s) ≤ 64 → length (canonical s) ≤ 1048576
        → (forest : Forest) → IsForestOf (canonical s) (forest_nodes forest)
        → (t : Surface) → IsSurfaceOf forest t → canonical t ≡ canonical s }
{}
