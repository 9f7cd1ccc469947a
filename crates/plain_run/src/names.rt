//! Tables of names.

ghost use Rattle.std.specs.Prelude.{◌≡◌, OnOk, OnErr};
ghost use Rattle.indexmap.specs.IndexMap.{insert_entry};
ghost use Rattle.plain_run.specs.Code.Frames.{dest_of};
ghost use Rattle.plain_run.specs.Code.Names.{same_name};
ghost use Rattle.plain_run.specs.Code.Stored.{Stores};

use crate::environment::Environment;
use crate::value::Value;
use c_lang::{Dest, Name};
use indexmap::IndexMap;
use std::alloc::AllocError;

/// The values of names.
pub type Values<'p, F> = IndexMap<&'p Name, Value<F>>;

// Puts a value under a name. After an error the table is as before.
pub(crate) fn put<'p, V: Copy>(
    table: &mut IndexMap<&'p Name, V>,
    name: &'p Name,
    value: V,
) -> Result<(), AllocError>
    ensures set { OnOk result (table.new.entries ≡ insert_entry same_name table.old.entries name.entry value) }
    ensures kept { OnErr result (table.new.entries ≡ table.old.entries) }
{
    table.insert(name, value)?;
    Ok(())
}

// Stores a value in a local where the frame of these locals has the name, else in the environment.
// After an error both are as before.
pub(crate) fn store<'p, E: Environment<'p>>(
    environment: &mut E,
    origin: E::Origin,
    locals: &mut Values<'p, E::Function>,
    dest: &'p Dest,
    value: Value<E::Function>,
) -> Result<(), AllocError>
    ensures stored { OnOk result (Stores E.seen (E.rules environment.old).access origin
        (E.state environment.old) locals.old.entries dest.entry.now value
        (E.state environment.new) locals.new.entries) }
    ensures rules { E.rules environment.new ≡ E.rules environment.old }
    ensures state { OnErr result (E.state environment.new ≡ E.state environment.old) }
    ensures locals { OnErr result (locals.new.entries ≡ locals.old.entries) }
{
    match dest {
        Dest::Nowhere => Ok(()),
        Dest::Fresh(_, name) => put(locals, name, value),
        Dest::Into(name) => {
            if locals.contains_key(&name) {
                put(locals, name, value)
            } else {
                environment.put(origin, name, value)
            }
        }
    }
}

// The same for a result, which goes nowhere where there is no destination.
pub(crate) fn store_result<'p, E: Environment<'p>>(
    environment: &mut E,
    origin: E::Origin,
    locals: &mut Values<'p, E::Function>,
    dest: Option<&'p Dest>,
    value: Value<E::Function>,
) -> Result<(), AllocError>
    ensures stored { OnOk result (Stores E.seen (E.rules environment.old).access origin
        (E.state environment.old) locals.old.entries (dest_of dest.entry) value
        (E.state environment.new) locals.new.entries) }
    ensures rules { E.rules environment.new ≡ E.rules environment.old }
    ensures state { OnErr result (E.state environment.new ≡ E.state environment.old) }
    ensures locals { OnErr result (locals.new.entries ≡ locals.old.entries) }
{
    match dest {
        Some(dest) => store(environment, origin, locals, dest, value),
        None => Ok(()),
    }
}
