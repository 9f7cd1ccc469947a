//! What holds of texts.

ghost use Rattle.std.specs.Prelude.{◌≡◌, ◌<◌, ℕ, List, All, true};
ghost use Rattle.std.specs.Str.{IsUtf8};
ghost use Rattle.terms.specs.Trees.{FormTree, TermTree};
ghost use Rattle.terms.specs.declared.sym.Sym.{Sym};
ghost use Rattle.formula_texts.specs.declared.token.Token.{Token};
ghost use Rattle.formula_texts.specs.declared.value.Value.{Value};
ghost use Rattle.formula_texts.specs.Texts.{AreOf, IsFormText, IsNameText, IsTermText};
ghost use Rattle.formula_texts.specs.Written.{form_text, has_form_text, has_name_text, has_term_text, name_text, term_text};

/// No text is two forms, two terms or two names.
pub fn one_meaning()
    ensures form { (text : List ℕ) (some other : FormTree) → IsFormText text some → IsFormText text other → some ≡ other }
    ensures term { (text : List ℕ) (some other : TermTree) → IsTermText text some → IsTermText text other → some ≡ other }
    ensures name { (text : List ℕ) (some other : Sym) → IsNameText text some → IsNameText text other → some ≡ other }
{}

/// No tokens are two forms or terms.
pub fn one_value()
    ensures { (brackets operators : ℕ) (tokens : List Token) (some other : Value)
        → AreOf brackets operators tokens some → AreOf brackets operators tokens other → some ≡ other }
{}

/// What has a text is read back from it.
pub fn written_is_read()
    ensures form { (f : FormTree) → has_form_text f ≡ true → IsFormText (form_text f) f }
    ensures term { (t : TermTree) → has_term_text t ≡ true → IsTermText (term_text t) t }
    ensures name { (x : Sym) → has_name_text x ≡ true → IsNameText (name_text x) x }
{}

/// The text of what has one is ASCII, and so UTF-8.
pub fn written_is_ascii()
    ensures form { (f : FormTree) → has_form_text f ≡ true → All (λ byte. byte < 128) (form_text f) × IsUtf8 (form_text f) }
    ensures term { (t : TermTree) → has_term_text t ≡ true → All (λ byte. byte < 128) (term_text t) × IsUtf8 (term_text t) }
    ensures name { (x : Sym) → has_name_text x ≡ true → All (λ byte. byte < 128) (name_text x) × IsUtf8 (name_text x) }
{}
