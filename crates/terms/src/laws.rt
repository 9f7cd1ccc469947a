//! What the definitions of truth and of replacing have in common. The functions do nothing: each
//! contract is a law.
ghost use Rattle.std.specs.Prelude.{◌≡◌, ◌↔◌, ◌≤ℤ◌, ◌<ℤ◌, ℤ, IsTrue, All};
ghost use Rattle.terms.specs.declared.sym.Sym.{Sym};
ghost use Rattle.terms.specs.declared.fact.Fact.{Fact};
ghost use Rattle.terms.specs.declared.fact.Fact.TheVariants as fact;
ghost use Rattle.terms.specs.Names.{term_names, array_names, form_names, fact_names};
ghost use Rattle.terms.specs.Trees.{TermTree, ArrayTree, FormTree};
ghost use Rattle.terms.specs.Truth.{Interpretation, AgreesAt, term_at, array_at, form_at, FactAt};
ghost use Rattle.terms.specs.Replacing.{Change, Avoids, number_by, changed, replaced_term, replaced_array, replaced_form, replaced_fact};

/// Where names are replaced, all at once, terms are worth, arrays hold, and forms and facts are
/// true, what they were with each name standing for what replaced it. Of a fact, nothing that is
/// put in may have the bound name.
pub fn truth_where_replaced()
    ensures terms { (c : Change) (v : Interpretation) (t : TermTree) →
        term_at v (replaced_term c t) ≡ term_at (changed c v) t }
    ensures arrays { (c : Change) (v : Interpretation) (a : ArrayTree) (k : ℤ) →
        array_at v (replaced_array c a) k ≡ array_at (changed c v) a k }
    ensures forms { (c : Change) (v : Interpretation) (f : FormTree) →
        form_at v (replaced_form c f) ≡ form_at (changed c v) f }
    ensures facts { (c : Change) (v : Interpretation) (f : Fact) → Avoids c f →
        FactAt v (replaced_fact c f) ↔ FactAt (changed c v) f }
{}

/// What a term is worth, what an array holds, and whether a form or a fact is true depend on its
/// free names alone.
pub fn truth_by_free_names()
    ensures terms { (v w : Interpretation) (t : TermTree) → All (AgreesAt v w) (term_names t) →
        term_at v t ≡ term_at w t }
    ensures arrays { (v w : Interpretation) (a : ArrayTree) (k : ℤ) →
        All (AgreesAt v w) (array_names a) → array_at v a k ≡ array_at w a k }
    ensures forms { (v w : Interpretation) (f : FormTree) → All (AgreesAt v w) (form_names f) →
        form_at v f ≡ form_at w f }
    ensures facts { (v w : Interpretation) (f : Fact) → All (AgreesAt v w) (fact_names f) →
        FactAt v f → FactAt w f }
{}

/// A fact about a range holds of each term that is worth a number of the range.
pub fn truth_of_instance()
    ensures { (v : Interpretation) (x : Sym) (lo hi t : TermTree) (f : FormTree) →
        FactAt v (fact.All x lo hi f) → term_at v lo ≤ℤ term_at v t → term_at v t <ℤ term_at v hi →
        IsTrue (form_at v (replaced_form (number_by x t) f)) }
{}
