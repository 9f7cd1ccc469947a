ghost use Rattle.std.specs.Prelude.{◌≡◌, IfOk};
ghost use Rattle.terms.specs.Replacing.{change_in, replaced_fact};
ghost use Rattle.loop_invariants.specs.Binding.{BindsBound, KeepsBound};

use std::alloc::{AllocError, Global};
use terms::{Changes, Fact, subst_all, subst_term_all};

/// The fact in which many names are replaced, all at once. It binds no number but `$`, which has to stay. What is put
/// in may have `$`, too, so the truth of what is made isn't told. The only error is want of memory.
pub fn changed_fact(alloc: Global, fact: &Fact, by: &Changes) -> Result<Fact, AllocError>
    requires fact { BindsBound fact.now }
    requires by { KeepsBound (change_in by.now) }
    ensures { IfOk result (λ made. made ≡ replaced_fact (change_in by.now) fact.now) }
{
    match fact {
        Fact::Plain(form) => Ok(Fact::Plain(subst_all(alloc, form, by)?)),
        Fact::All { var, lo, hi, body } => {
            let lo = subst_term_all(alloc, lo, by)?;
            let hi = subst_term_all(alloc, hi, by)?;
            let body = subst_all(alloc, body, by)?;
            Ok(Fact::All {
                var: var.copy(alloc)?,
                lo,
                hi,
                body,
            })
        }
    }
}
