// What holds of every surface.
ghost use Rattle.std.specs.Prelude.{◌≡◌, ℕ, List, map, None};
ghost use Rattle.std.specs.List.Sorted.{IsStrictlyIncreasing};
ghost use Rattle.spec_forest.specs.declared.tree.Forest.{Forest};
ghost use Rattle.spec_forest.specs.Node.{Node, forest_nodes, none, more};
ghost use Rattle.spec_forest.specs.Tokens.{IsForestOf};
ghost use Rattle.spec_forest.specs.Layout.{page_text};
ghost use Rattle.spec_forest.specs.Pieces.{unplaced};
ghost use Rattle.spec_text.specs.declared.surface.TypeForm.{TypeForm};
ghost use Rattle.spec_text.specs.declared.surface.ConstForm.{ConstForm};
ghost use Rattle.spec_text.specs.declared.surface.Expr.{Expr};
ghost use Rattle.spec_text.specs.declared.surface.Decl.{Decl};
ghost use Rattle.spec_text.specs.declared.surface.Surface.{Surface};
ghost use Rattle.spec_words.specs.Words.{spec_word};
ghost use Rattle.spec_text.specs.Form.{IsSurfaceOf, Matches, form_of, form_of_type, form_of_const, form_of_expr, form_of_decl, forms};
ghost use Rattle.spec_text.specs.Bare.{bare, bares};
ghost use Rattle.spec_text.specs.Canonical.{canonical};
ghost use Rattle.spec_text.specs.WithoutPlaces.{without_places, SameButPlaces};
ghost use Rattle.spec_text.specs.Places.{form_places, place_of_type, place_of_const, place_of_expr, place_of_decl, place_of_node};
ghost use Rattle.spec_text.specs.KeepsTable.{KeepsTable};
ghost use Rattle.spec_text.specs.Shape.{shape_fault};

/// A forest is the form of at most one surface that keeps the table, places included.
pub fn forest_has_one_surface()
    ensures { (forest : Forest) (s t : Surface) → IsSurfaceOf forest s → IsSurfaceOf forest t → KeepsTable s → KeepsTable t → s ≡ t }
{}

/// A forest without a shape fault holds a surface that keeps the table.
pub fn sound_forest_has_surface()
    ensures { (forest : Forest) → shape_fault forest ≡ None → (s : Surface) × IsSurfaceOf forest s × KeepsTable s }
{}

/// A surface that keeps the table fits it: a forest that is its form, but for places, has no shape fault.
pub fn kept_surfaces_fit()
    ensures { (s : Surface) → KeepsTable s → (forest : Forest) → unplaced (forest_nodes forest) ≡ more (bare (form_of s)) none
        → shape_fault forest ≡ None }
{}

/// The surfaces of one forest have one form up to places, and one canonical text.
pub fn surfaces_have_one_text()
    ensures form { (forest : Forest) (s t : Surface) → IsSurfaceOf forest s → IsSurfaceOf forest t → bare (form_of s) ≡ bare (form_of t) }
    ensures text { (forest : Forest) (s t : Surface) → IsSurfaceOf forest s → IsSurfaceOf forest t → canonical s ≡ canonical t }
{}

/// A canonical text is the page of its surface's form: a list that begins with the version's word and the name, with
/// each declaration on a line of its own.
pub fn canonical_texts_are_pages()
    ensures { (s : Surface) → canonical s ≡ page_text (spec_word s.version) s.name (bares (forms (map form_of_decl s.decls))) }
{}

/// In a text the parts of a specification stand one behind the other: the places that its form keeps ascend in
/// preorder, and with them those of the declarations.
pub fn parts_ascend()
    ensures parts { (text : List ℕ) (forest : Forest) (s : Surface) → IsForestOf text (forest_nodes forest) → IsSurfaceOf forest s
        → IsStrictlyIncreasing (form_places (form_of s)) }
    ensures decls { (text : List ℕ) (forest : Forest) (s : Surface) → IsForestOf text (forest_nodes forest) → IsSurfaceOf forest s
        → IsStrictlyIncreasing (map place_of_decl s.decls) }
{}

/// Surfaces that keep the table and have one form but for places are one surface but for places. Without places a
/// surface has its form but for places, and keeps the table as before.
pub fn forms_tell_surfaces()
    ensures same { (s t : Surface) → KeepsTable s → KeepsTable t → bare (form_of s) ≡ bare (form_of t) → SameButPlaces s t }
    ensures form { (s : Surface) → bare (form_of (without_places s)) ≡ bare (form_of s) }
    ensures kept { (s : Surface) → KeepsTable s → KeepsTable (without_places s) }
{}

/// A part of a surface stands at the place of the node that it is read from.
pub fn parts_stand_at_their_nodes()
    ensures types { (t : TypeForm) (x : Node) → Matches (form_of_type t) x → place_of_type t ≡ place_of_node x }
    ensures consts { (c : ConstForm) (x : Node) → Matches (form_of_const c) x → place_of_const c ≡ place_of_node x }
    ensures exprs { (e : Expr) (x : Node) → Matches (form_of_expr e) x → place_of_expr e ≡ place_of_node x }
    ensures decls { (d : Decl) (x : Node) → Matches (form_of_decl d) x → place_of_decl d ≡ place_of_node x }
{}
