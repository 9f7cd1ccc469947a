//! What the definitions of rules and of checking have in common. The functions do nothing: each
//! contract is a law.
ghost use Rattle.std.specs.Prelude.{ℕ, ℤ, pos, ◌≡◌, ◌↔◌, List, [], ◌∷◌, ◌++◌, Some, true, All, IsTrue};
ghost use Rattle.std.specs.List.{AllZip};
ghost use Rattle.terms.specs.declared.fact.Fact.{Fact};
ghost use Rattle.terms.specs.declared.sequent.Sequent.{Sequent};
ghost use Rattle.terms.specs.declared.sequent.Sort.{Sort};
ghost use Rattle.terms.specs.declared.sym.Sym.{Sym};
ghost use Rattle.terms.specs.Trees.{FormTree, TermTree};
ghost use Rattle.linear_rows.specs.declared.row.Row.{Row};
ghost use Rattle.linear_rows.specs.Sums.{Holds};
ghost use Rattle.cert_checker.specs.Numbering.{atom_number, has_atom, have_numbers, with_atoms, IsRow};
ghost use Rattle.cert_checker.specs.Linear.{Multiple};
ghost use Rattle.terms.specs.Truth.{Interpretation, form_at, term_at};
ghost use Rattle.terms.specs.Validity.{InRange, Valid};
ghost use Rattle.cert_form.specs.declared.cert.Cert.{Cert};
ghost use Rattle.cert_form.specs.declared.cert.Rule.{Rule};
ghost use Rattle.cert_checker.specs.Rows.{Line, row_of};
ghost use Rattle.cert_checker.specs.Worth.{LineAt};
ghost use Rattle.cert_checker.specs.Rules.{children};
ghost use Rattle.cert_checker.specs.Fails.{Fails};
ghost use Rattle.cert_checker.specs.Checks.{checks, one_after_another, Checks};

/// A form is true exactly where its row is.
pub fn row_is_true()
    ensures { (v : Interpretation) (f : FormTree) (line : Line) → row_of f ≡ Some line →
        IsTrue (form_at v f) ↔ LineAt v line }
{}

/// A row over numbered atoms is true, where each atom's number stands for what the atom is worth, exactly
/// where its line is. Atoms that are added have numbers.
pub fn numbered_row_is_true()
    ensures numbered { (atoms : List TermTree) (ms : List Multiple) → have_numbers (with_atoms atoms ms) ms ≡ true }
    ensures holds { (v : Interpretation) (point : ℕ → ℤ) (atoms : List TermTree) (line : Line) (row : Row) →
        IsRow atoms line row → have_numbers atoms line.multiples ≡ true →
        ((t : TermTree) → has_atom atoms t ≡ true → point (atom_number atoms t) ≡ term_at v t) →
        LineAt v line ↔ Holds point (pos 1) row }
{}

/// Where all children of a branch fail at an interpretation that the sorts allow, the branch fails
/// there.
pub fn rule_is_sound()
    ensures { (v : Interpretation) (sorts : List (Sym × Sort)) (facts : List Fact) (rule : Rule)
        (made : List (List Fact)) → InRange v sorts → children sorts facts rule ≡ Some made →
        All (λ forms. Fails v (facts ++ forms)) made → Fails v facts }
{}

/// A sequent whose certificate checks is valid.
pub fn checked_is_valid()
    ensures { (s : Sequent) (cert : Cert) → Checks s cert → Valid s }
{}

/// A rule that applies, followed by rules that check for its children in order, checks.
pub fn rules_follow()
    ensures { (sorts : List (Sym × Sort)) (facts : List Fact) (rule : Rule)
        (made : List (List Fact)) (parts : List (List Rule)) → children sorts facts rule ≡ Some made →
        AllZip (λ rules forms. checks sorts rules ((facts ++ forms) ∷ []) ≡ true) parts made →
        checks sorts (rule ∷ one_after_another parts) (facts ∷ []) ≡ true }
{}
